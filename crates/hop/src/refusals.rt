// Document 01's table of refusals: their numbers, and the boards that they name.
ghost use Rattle.std.specs.Prelude.{◌≡◌, [], Some};
ghost use Rattle.hop.specs.Answers.{number_by, board_by, refused_text, number_in, board_in, of_answer};

use ring::Outside;
use std::error::Error;
use std::fmt;

// Why a job, lists or a buffer are refused.
#[derive(Clone, Copy, Debug, PartialEq, Eq)]
pub enum Refusal {
    // fewer than 7 bytes
    TooShort,
    // another mark
    NoJob,
    // another version
    NoVersion,
    NoKind,
    // fewer boards than 2, or more than 128
    BoardCount,
    // more or fewer bytes than the boards take, or lists that differ in length
    WrongLength,
    // a number of this board is outside its limits
    BadBoard { fault: Outside, board: u8 },
    // where the links' costs are to be one, this board's differs from board 0's
    UnlikeCost { board: u8 },
    // the surpluses don't sum to 0
    Unbalanced,
    // the finish does not fit 32 bits
    TooLate,
    // the lent buffer is too short
    NoRoom,
    // a lent list is too short; number and board are the call's own: `lists::plan_for` promises any number, with board 0 (`list_answer`), and what `number`
    // and `board` promise is of any two
    ShortList { number: u8, board: u8 },
}

impl Refusal {
    // The refusal's number in the table.
    pub fn number(self) -> u8
        ensures { result ≡ number_by self }
    {
        match self {
            Refusal::TooShort => 1,
            Refusal::NoJob => 2,
            Refusal::NoVersion => 3,
            Refusal::NoKind => 4,
            Refusal::BoardCount => 5,
            Refusal::WrongLength => 6,
            Refusal::BadBoard { fault, board: _ } => fault.number(),
            Refusal::UnlikeCost { board: _ } => 10,
            Refusal::Unbalanced => 11,
            Refusal::TooLate => 12,
            Refusal::NoRoom => 13,
            Refusal::ShortList { number, board: _ } => number,
        }
    }

    // The board that it names, and 0 where it names none.
    pub fn board(self) -> u8
        ensures { result ≡ board_by self }
    {
        match self {
            Refusal::BadBoard { fault: _, board } => board,
            Refusal::UnlikeCost { board } => board,
            Refusal::ShortList { number: _, board } => board,
            _ => 0,
        }
    }
}

// The number of an answer's refusal, and 0 of a success. This and the next are for callers, as docs/PROMISES.md promises them.
pub fn number<T: Drop>(answer: Result<T, Refusal>) -> u8
    ensures { result ≡ number_in (of_answer (λ _. []) answer) }
{
    answer.err().map_or(0, Refusal::number)
}

// The board that it names, and 0 of a success.
pub fn board<T: Drop>(answer: Result<T, Refusal>) -> u8
    ensures { result ≡ board_in (of_answer (λ _. []) answer) }
{
    answer.err().map_or(0, Refusal::board)
}

impl fmt::Display for Refusal {
    ghost output = { λ refusal. Some (refused_text refusal) };

    fn fmt<W: fmt::Write>(&self, f: &mut fmt::Formatter<W>) -> fmt::Result {
        write!(f, "refused {} board {}", self.number(), self.board())
    }
}

impl Error for Refusal {}
