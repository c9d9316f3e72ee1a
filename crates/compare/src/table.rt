// The second planner's own reading of a job: its numbers, and refusals 1 to 11 as document 01's table has them. It shares nothing with the
// job reader. Every rule for the boards is looked at, whatever the others say, and the refusal that comes first in the table's order is given.
use crate::job::{Board, Job, Kind, MOST_BOARDS, NoKind};

// The number of a board that is outside its limits: the second planner's own, since two programs that share a part agree on its mistakes
// (docs/DECISIONS.md, A second planner that judges).
#[derive(Clone, Copy, Debug, PartialEq, Eq, PartialOrd, Ord)]
pub(crate) enum Fault {
    Load,
    After,
    Cost,
}

// Why there is no plan, in the table's order: the second planner's own, with its own numbers.
#[derive(Clone, Copy, Debug, PartialEq, Eq, PartialOrd, Ord)]
pub(crate) enum Refusal {
    Head,
    Mark,
    Version,
    Kind,
    Boards,
    Length,
    Board(u8, Fault),
    // a link whose cost is not link 0's
    Unlike(u8),
    // surpluses whose sum is not 0
    Surplus,
    // too small a buffer for the plan
    Buffer,
    // too small a list for the columns
    List,
}

impl Refusal {
    pub(crate) fn number(self) -> u8 {
        match self {
            Refusal::Head => 1,
            Refusal::Mark => 2,
            Refusal::Version => 3,
            Refusal::Kind => 4,
            Refusal::Boards => 5,
            Refusal::Length => 6,
            Refusal::Board(_, Fault::Load) => 7,
            Refusal::Board(_, Fault::After) => 8,
            Refusal::Board(_, Fault::Cost) => 9,
            Refusal::Unlike(_) => 10,
            Refusal::Surplus => 11,
            Refusal::Buffer => 13,
            Refusal::List => 16,
        }
    }

    // The refusal's board, 0 for a refusal of no board.
    pub(crate) fn board(self) -> u8 {
        match self {
            Refusal::Board(board, _) | Refusal::Unlike(board) => board,
            _ => 0,
        }
    }
}

impl From<NoKind> for Refusal {
    fn from(_: NoKind) -> Self {
        Refusal::Kind
    }
}

// The kind and the boards' bytes, or the first of refusals 1 to 6.
fn opened(s: &[u8]) -> Result<(Kind, &[[u8; 6]]), Refusal> {
    let Some((head, rest)) = s.split_first_chunk::<7>() else {
        return Err(Refusal::Head);
    };
    let [h, o, p, high, low, kind, n] = *head;
    if [h, o, p] != *b"HOP" {
        return Err(Refusal::Mark);
    }
    if u16::from_be_bytes([high, low]) != 1 {
        return Err(Refusal::Version);
    }
    let kind = Kind::try_from(kind)?;
    if !(2..=128).contains(&n) {
        return Err(Refusal::Boards);
    }
    if rest.len() != 6 * usize::from(n) {
        return Err(Refusal::Length);
    }
    let (boards, _) = rest.as_chunks::<6>();
    Ok((kind, boards))
}

// Which of a board's numbers is outside its limits, the first where more than one is.
fn fault_of(board: &Board) -> Option<Fault> {
    if !(1..=4095).contains(&board.load) {
        return Some(Fault::Load);
    }
    if !(1..=4095).contains(&board.after()) {
        return Some(Fault::After);
    }
    if !(1..=8000).contains(&board.cost) {
        return Some(Fault::Cost);
    }
    None
}

// Refusals 7 to 10 of board i, where board 0's cost is the first.
fn board_refusal(kind: Kind, i: u8, board: &Board, first: u16) -> Option<Refusal> {
    if let Some(fault) = fault_of(board) {
        return Some(Refusal::Board(i, fault));
    }
    if kind == Kind::MixedOneWay || board.cost == first {
        return None;
    }
    Some(Refusal::Unlike(i))
}

// Refusal 11.
fn surplus_refusal(boards: &[Board]) -> Option<Refusal> {
    let sum = boards
        .iter()
        .map(|board| i32::from(board.surplus))
        .fold(0, i32::wrapping_add);
    (sum != 0).then_some(Refusal::Surplus)
}

// The first of refusals 7 to 11.
fn refusal_of(job: &Job) -> Option<Refusal> {
    let boards = job.boards();
    let first = boards.first()?.cost;
    let kind = job.kind;
    (0..128)
        .zip(boards)
        .filter_map(|(i, board)| board_refusal(kind, i, board, first))
        .chain(surplus_refusal(boards))
        .min()
}

// The job of any bytes.
pub(crate) fn read(s: &[u8]) -> Result<Job, Refusal> {
    let (kind, numbers) = opened(s)?;
    let mut boards = [Board::AT_REST; MOST_BOARDS];
    for (board, bytes) in boards.iter_mut().zip(numbers) {
        *board = Board::from(*bytes);
    }
    let job = Job::new(kind, numbers.len(), boards);
    match refusal_of(&job) {
        Some(refusal) => Err(refusal),
        None => Ok(job),
    }
}
