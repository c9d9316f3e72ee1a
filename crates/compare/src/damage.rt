// A ring's bytes as a job, written as document 01 has them, and such bytes damaged.
ghost use Rattle.std.specs.Prelude.{◌≤◌};
ghost use Rattle.compare.specs.declared.damage.TheConstants.{ROOM};

use crate::job::{Board, Job};
use crate::rings::Draws;

// How many bytes there is room for: a job of 128 boards has 775.
const ROOM: usize = 800;

// The bytes of a job: an array beside their number, since the program has fixed memory.
#[derive(Clone, Copy)]
pub(crate) struct Bytes {
    bytes: [u8; ROOM],
    length: usize,
    ghost within: { length ≤ ROOM },
}

// A way to damage a job.
#[derive(Clone, Copy, Debug, PartialEq, Eq)]
pub(crate) enum Way {
    // none
    Whole,
    // a byte changed
    Byte,
    // cut
    Cut,
    // up to 8 bytes after it
    Longer,
    // a byte of its head changed
    Head,
    // a number of a board changed
    Board,
}

impl Way {
    pub(crate) const ALL: [Way; 6] = [
        Way::Whole,
        Way::Byte,
        Way::Cut,
        Way::Longer,
        Way::Head,
        Way::Board,
    ];
}

// The refusal that a changed number of a board is to be given for, 7 to 11.
#[derive(Clone, Copy, Debug, PartialEq, Eq)]
pub(crate) enum Aim {
    Load,
    After,
    Cost,
    Unlike,
    Surplus,
}

impl Aim {
    pub(crate) const ALL: [Aim; 5] = [Aim::Load, Aim::After, Aim::Cost, Aim::Unlike, Aim::Surplus];

    // The board with one of its numbers changed.
    fn damage(self, draws: &mut Draws, board: Board) -> Board {
        let mut damaged = board;
        match self {
            Aim::Load => damaged.load = outside(draws, 4095),
            Aim::After => {
                let after = outside(draws, 4095);
                damaged.surplus = board.load.wrapping_sub(after).cast_signed();
            }
            Aim::Cost => damaged.cost = outside(draws, 8000),
            Aim::Unlike => damaged.cost = 1 + draws.below(8000),
            Aim::Surplus => {
                damaged.surplus = if draws.below(2) == 0 {
                    board.surplus.wrapping_add(1)
                } else {
                    board.surplus.wrapping_sub(1)
                };
            }
        }
        damaged
    }
}

// A number outside 1 to a limit, next to it.
fn outside(draws: &mut Draws, limit: u16) -> u16 {
    match draws.below(4) {
        0 => 0,
        over => limit.wrapping_add(over),
    }
}

impl Bytes {
    // The job of a ring.
    pub(crate) fn of(job: &Job) -> Self {
        let boards = job.boards();
        let n = boards.len();
        let mut bytes = [0u8; ROOM];
        let head = [b'H', b'O', b'P', 0, 1, job.kind as u8, n as u8];
        bytes[..7].copy_from_slice(&head);
        let (numbers, _) = bytes[7..].as_chunks_mut::<6>();
        for (number, board) in numbers.iter_mut().zip(boards) {
            *number = (*board).into();
        }
        Bytes {
            bytes,
            length: 7 + 6 * n,
        }
    }

    pub(crate) fn as_slice(&self) -> &[u8] {
        &self.bytes[..self.length]
    }

    // With so many bytes.
    fn resize(&mut self, length: usize) {
        self.length = length.min(ROOM);
    }

    // With one of its first bytes changed.
    fn change(&mut self, draws: &mut Draws, first: usize) {
        let at = usize::from(draws.below((first % ROOM) as u16)) % ROOM;
        let by = 1 + draws.below(255) % 255;
        self.bytes[at] = self.bytes[at].wrapping_add(by as u8);
    }

    // With a number of one of its boards changed.
    fn damage_board(&mut self, draws: &mut Draws, aim: Aim) {
        let place = draws.place(usize::from(self.bytes[6]));
        let (numbers, _) = self.bytes[7..].as_chunks_mut::<6>();
        if let Some(number) = numbers.get_mut(place) {
            *number = aim.damage(draws, Board::from(*number)).into();
        }
    }

    // The job damaged in a way; a changed number of a board aims at a refusal.
    pub(crate) fn damaged(&self, draws: &mut Draws, way: Way, aim: Aim) -> Self {
        let mut job = *self;
        let length = self.length;
        match way {
            Way::Whole => {}
            Way::Byte => job.change(draws, length),
            Way::Cut => job.resize(draws.below((length % ROOM) as u16).into()),
            Way::Longer => job.resize(length + 1 + usize::from(draws.below(8))),
            Way::Head => job.change(draws, 7),
            Way::Board => job.damage_board(draws, aim),
        }
        job
    }
}
