// The rules that a ring's numbers are held to, said once for the reader and the writer, whose boards stand in bytes and in lists: refusals 4, 5 and
// 7 to 11.
ghost use Rattle.std.specs.Prelude.{◌≡◌, ℕ, ℤ, ◌*◌, ◌≤◌, ◌<◌, pos};
ghost use Rattle.std.specs.Int.Signed.{mag};
ghost use Rattle.hop.specs.Refusals.{shape_of, ring_check};
ghost use Rattle.hop.specs.Seen.{seen_with, settled_of};

use crate::{FEWEST_BOARDS, Kind, MOST_BOARDS, Numbers, Refusal, Shape};
use ring::{Board, Outside};

// The boards of a ring, wherever their numbers stand.
pub(crate) trait Boards {
    // whether board i has a place there
    ghost has: { Self → ℕ → Type 0 };

    ghost load: { Self → ℕ → ℕ };

    ghost surplus: { Self → ℕ → ℤ };

    ghost cost: { Self → ℕ → ℕ };

    // The numbers of board i.
    fn numbers(&self, i: u8) -> Numbers
        requires { has self.now i }
        ensures { result ≡ record { load = load self.now i; surplus = surplus self.now i; cost = cost self.now i } };
}

// Refusals 4 and 5, or the kind and n. The kind is any byte, as a job or the caller of `write` has it: 4 is promised of the others (`shape_of`).
pub(crate) fn shape(kind: u8, n: usize) -> Result<Shape, Refusal>
    ensures { result ≡ shape_of kind n }
{
    let kind = Kind::try_from(kind)?;
    if n < FEWEST_BOARDS {
        return Err(Refusal::BoardCount);
    }
    if MOST_BOARDS < n {
        return Err(Refusal::BoardCount);
    }
    Ok(Shape { kind, n: n as u8 })
}

// What a walk over a ring's boards has seen: the cost of board 0, how many boards from there on have it too, and the sum of the surpluses.
#[derive(Clone, Copy)]
struct Seen {
    first: u16,
    alike: u8,
    sum: i32,
}

impl Seen {
    // With no board seen yet, of a ring whose board 0 has this cost.
    fn none(first: u16) -> Self
        ensures { result ≡ record { first = first; alike = 0; sum = pos 0 } }
    {
        Seen {
            first,
            alike: 0,
            sum: 0,
        }
    }

    // With board i seen too; or which of its numbers is outside its limits.
    fn with(self, i: u8, board: Numbers) -> Result<Self, Outside>
        requires small { mag self.sum ≤ 32768 * 128 }
        requires few { i < 128 }
        ensures { result ≡ seen_with self i board.load board.surplus board.cost }
    {
        let _ = Board::new(board.load, board.surplus, board.cost)?;
        let alike = if self.alike == i && board.cost == self.first {
            i + 1
        } else {
            self.alike
        };
        Ok(Seen {
            first: self.first,
            alike,
            sum: self.sum + i32::from(board.surplus),
        })
    }

    // When all boards were seen: refusal 10 unless the kind is 2, then 11, or the ring.
    fn settled(self, ring: Shape) -> Result<Shape, Refusal>
        ensures { result ≡ settled_of ring self }
    {
        if ring.kind != Kind::MixedOneWay {
            if self.alike < ring.n {
                return Err(Refusal::UnlikeCost { board: self.alike });
            }
        }
        if self.sum != 0 {
            return Err(Refusal::Unbalanced);
        }
        Ok(ring)
    }
}

// Refusals 7 to 11 of a ring's boards, or the ring.
pub(crate) fn check<B: Boards>(ring: Shape, boards: &B) -> Result<Shape, Refusal>
    requires n_bound { (1 ≤ ring.n) × (ring.n ≤ 128) }
    requires boards_there { (i : ℕ) → i < ring.n → B.has boards.now i }
    ensures { result ≡ ring_check ring (B.load boards.now) (B.surplus boards.now) (B.cost boards.now) }
{
    let mut seen = Seen::none(boards.numbers(0).cost);
    // by board, whose number a refusal names; a proof doesn't learn what a closure in `map_err` answers, so the fault is matched
    for i in 0..ring.n {
        match seen.with(i, boards.numbers(i)) {
            Ok(more) => seen = more,
            Err(fault) => return Err(Refusal::BadBoard { fault, board: i }),
        }
    }
    seen.settled(ring)
}
