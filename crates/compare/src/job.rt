// A ring of boards, as it is drawn and as it is read from a job's bytes: its kind, and the numbers of its boards. All of it is the second
// planner's own, since two programs that share a part agree on its mistakes (docs/DECISIONS.md, A second planner that judges).
ghost use Rattle.std.specs.Prelude.{◌≤◌, length};
ghost use Rattle.compare.specs.declared.job.TheConstants.{MOST_BOARDS};

// How many boards a ring has at most.
pub(crate) const MOST_BOARDS: usize = 128;

// A ring's kind, under a job's number for it.
#[derive(Clone, Copy, Debug, PartialEq, Eq)]
pub(crate) enum Kind {
    OneWay = 1,
    MixedOneWay = 2,
    TwoWay = 3,
}

impl Kind {
    pub(crate) const ALL: [Kind; 3] = [Kind::OneWay, Kind::MixedOneWay, Kind::TwoWay];
}

// A number that is no kind's.
#[derive(Clone, Copy, Debug, PartialEq, Eq)]
pub(crate) struct NoKind;

impl TryFrom<u8> for Kind {
    type Error = NoKind;

    fn try_from(number: u8) -> Result<Self, NoKind> {
        match number {
            1 => Ok(Kind::OneWay),
            2 => Ok(Kind::MixedOneWay),
            3 => Ok(Kind::TwoWay),
            _ => Err(NoKind),
        }
    }
}

// The numbers of a board, as a job has them. The link is the one to the next board.
#[derive(Clone, Copy, Debug, PartialEq, Eq)]
pub(crate) struct Board {
    pub(crate) load: u16,
    pub(crate) surplus: i16,
    pub(crate) cost: u16,
}

impl Board {
    // A board that has one item and keeps it.
    pub(crate) const AT_REST: Board = Board {
        load: 1,
        surplus: 0,
        cost: 1,
    };

    // The load after.
    pub(crate) fn after(&self) -> i32 {
        i32::from(self.load) - i32::from(self.surplus)
    }
}

impl From<[u8; 6]> for Board {
    fn from([a, b, c, d, e, f]: [u8; 6]) -> Self {
        Board {
            load: u16::from_be_bytes([a, b]),
            surplus: i16::from_be_bytes([c, d]),
            cost: u16::from_be_bytes([e, f]),
        }
    }
}

impl From<Board> for [u8; 6] {
    fn from(board: Board) -> Self {
        let [a, b] = board.load.to_be_bytes();
        let [c, d] = board.surplus.to_be_bytes();
        let [e, f] = board.cost.to_be_bytes();
        [a, b, c, d, e, f]
    }
}

// A ring. Its boards are an array beside their number, since the program has fixed memory.
#[derive(Clone, Copy)]
pub(crate) struct Job {
    pub(crate) kind: Kind,
    n: usize,
    boards: [Board; MOST_BOARDS],
    ghost within: { n ≤ MOST_BOARDS },
}

impl Job {
    // The ring of the first n boards.
    pub(crate) fn new(kind: Kind, n: usize, boards: [Board; MOST_BOARDS]) -> Self {
        Job {
            kind,
            n: n.min(MOST_BOARDS),
            boards,
        }
    }

    pub(crate) fn boards(&self) -> &[Board]
        ensures { length result.now ≤ MOST_BOARDS }
    {
        &self.boards[..self.n]
    }

    // The sum of the loads.
    pub(crate) fn columns(&self) -> usize {
        let loads = self.boards().iter().map(|board| usize::from(board.load));
        loads.fold(0, usize::wrapping_add)
    }

    // One of the numbers of each board, with places past the last board.
    pub(crate) fn numbers<T: Drop, F: FnMut(Board) -> T + Drop>(&self, of: F) -> [T; MOST_BOARDS]
        requires { F.IsAlwaysCallable of }
    {
        self.boards.map(of)
    }
}
