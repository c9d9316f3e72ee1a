// Rings of all kinds and sizes, drawn by a small generator: the same ones in every run.
ghost use Rattle.std.specs.Prelude.{◌<◌, ◌≤◌};

use crate::job::{Board, Job, Kind, MOST_BOARDS};
use crate::slices::{front, front_mut};

// How many of a ring's boards.
#[derive(Clone, Copy)]
enum Share {
    All,
    Half,
    Fourth,
    Fixed(usize),
}

impl Share {
    fn of(self, n: usize) -> usize {
        match self {
            Share::All => n,
            Share::Half => n / 2 + 1,
            Share::Fourth => n / 4 + 1,
            Share::Fixed(count) => count,
        }
    }
}

// Eight ways of drawing loads, by turns: the least load and from how many on, for the boards with the surplus, which are so many; and how often
// items are drawn to go from one of them to another board, and how many at most.
const LOADS: [(u16, u16, Share, Share, u16); 8] = [
    // small, and the same with no surplus
    (1, 6, Share::All, Share::All, 8),
    (1, 6, Share::All, Share::Fixed(0), 8),
    // a fourth of the boards, one board, or half of the boards with more than 1, and the whole surplus
    (1, 30, Share::Fourth, Share::All, 8),
    (1, 60, Share::Fixed(1), Share::All, 8),
    (1, 12, Share::Half, Share::All, 8),
    // near the limit
    (4000, 96, Share::All, Share::All, 8),
    // one board, or half of the boards, at the limit, and surpluses in the thousands
    (4095, 1, Share::Fixed(1), Share::Fixed(2), 4094),
    (4095, 1, Share::Half, Share::All, 4094),
];

// How a ring's costs are drawn: the least, and from how many on. Where they fall, those of kind 2 fall from link to link instead.
#[derive(Clone, Copy)]
enum Costs {
    Falling(u16, u16),
    Drawn(u16, u16),
}

impl Costs {
    // The cost of every link but in kind 2.
    fn common(self, draws: &mut Draws) -> u16 {
        match self {
            Costs::Falling(least, spread) | Costs::Drawn(least, spread) => {
                draws.pick((least, spread))
            }
        }
    }

    // The cost of link k in kind 2.
    fn mixed(self, draws: &mut Draws, k: usize) -> u16 {
        match self {
            Costs::Falling(_, _) => 15 - 2 * ((k % 8) as u16),
            Costs::Drawn(least, spread) => draws.pick((least, spread)),
        }
    }
}

// Six ways of drawing costs, by turns.
const COSTS: [Costs; 6] = [
    Costs::Falling(1, 10),
    Costs::Drawn(1, 1),
    Costs::Drawn(1, 9),
    Costs::Drawn(1, 40),
    Costs::Drawn(1, 8000),
    Costs::Drawn(8000, 1),
];

// The generator of a run.
#[derive(Drop)]
pub(crate) struct Draws(u64);

impl Draws {
    pub(crate) fn new() -> Self {
        Draws(1)
    }

    // The next number, below the one given and below 8,192; 0 where that is 0.
    pub(crate) fn below(&mut self, limit: u16) -> u16
        ensures { result < 8192 }
    {
        self.0 = self.0 % 2147483647 * 48271 % 2147483647;
        if limit == 0 {
            return 0;
        }
        (self.0 / 16 % u64::from(limit) % 8192) as u16
    }

    // One of n boards.
    pub(crate) fn place(&mut self, n: usize) -> usize
        ensures { result < 128 }
    {
        usize::from(self.below((n % 129) as u16) % 128)
    }

    // 2 to 128 boards, most often few.
    fn size(&mut self) -> usize {
        let class = self.below(16);
        let limit = if class < 15 { 2 + 2 * class } else { 127 };
        2 + usize::from(self.below(limit) % 127)
    }

    // A number from the least on, of so many.
    fn pick(&mut self, (least, spread): (u16, u16)) -> u16 {
        self.below(spread).saturating_add(least)
    }
}

// How a ring's boards are drawn: first those with the surplus, which are `width`, and then the others.
#[derive(Clone, Copy)]
struct Style {
    kind: Kind,
    loads: (u16, u16),
    width: usize,
    costs: Costs,
    // the cost of every link but in kind 2
    common: u16,
}

// Board k at rest.
fn draw_board(draws: &mut Draws, style: &Style, k: usize) -> Board {
    let load = if k < style.width {
        draws.pick(style.loads)
    } else {
        1
    };
    let cost = match style.kind {
        Kind::MixedOneWay => style.costs.mixed(draws, k),
        Kind::OneWay | Kind::TwoWay => style.common,
    };
    Board {
        load,
        surplus: 0,
        cost,
    }
}

// So many more items are to go from one board to another, where both stay within the limits.
fn shift(boards: &mut [Board], from: usize, to: usize, items: u16) -> Option<()> {
    let items = i16::try_from(items).ok()?;
    let left = boards.get(from)?.after().checked_sub(items.into())?;
    let held = boards.get(to)?.after().checked_add(items.into())?;
    if from != to && 1 <= left && held <= 4095 {
        let giver = boards.get_mut(from)?;
        giver.surplus = giver.surplus.wrapping_add(items);
        let taker = boards.get_mut(to)?;
        taker.surplus = taker.surplus.wrapping_sub(items);
    }
    Some(())
}

// So many turns of items, each from one of the boards from the mark on to another board.
fn move_items(
    draws: &mut Draws,
    boards: &mut [Board],
    mark: usize,
    width: usize,
    turns: usize,
    items: u16,
) {
    let n = boards.len();
    for _ in 0..turns {
        let from = mark.wrapping_add(draws.place(width)) % n.max(1);
        let to = draws.place(n);
        let _ = shift(boards, from, to, 1 + draws.below(items) % 4094);
    }
}

// Ring r with n boards: its kind and ways by turns, the rest drawn.
fn draw_boards(draws: &mut Draws, r: usize, n: usize) -> Job {
    let kind = Kind::ALL[r % 3];
    let (least, spread, width, turns, items) = LOADS[r / 3 % 8];
    let costs = COSTS[r / 24 % 6];
    let common = costs.common(draws);
    let mark = draws.place(n);
    let style = Style {
        kind,
        loads: (least, spread),
        width: width.of(n),
        costs,
        common,
    };
    let mut all = [Board::AT_REST; MOST_BOARDS];
    let boards = front_mut(&mut all, n);
    for (k, board) in boards.iter_mut().enumerate() {
        *board = draw_board(draws, &style, k);
    }
    boards.rotate_right(mark.min(boards.len()));
    move_items(draws, boards, mark, style.width, turns.of(n), items);
    Job::new(kind, n, all)
}

// Ring r, each 400th with 128 boards.
pub(crate) fn draw_ring(draws: &mut Draws, r: usize) -> Job {
    let n = if r % 400 == 7 { 128 } else { draws.size() };
    draw_boards(draws, r, n)
}

// The ring as a job, by the job writer: the job's length, where the writer doesn't refuse it.
pub(crate) fn write(job: &Job, bytes: &mut [u8]) -> Option<usize> {
    let n = job.boards().len();
    hop::write(
        job.kind as u8,
        front(&job.numbers(|board| board.load), n),
        front(&job.numbers(|board| board.surplus), n),
        front(&job.numbers(|board| board.cost), n),
        bytes,
    )
    .ok()
}
