// The job reader and writer: a job's bytes, the check of a ring's numbers, and what both answer.
#![tactic(auto)]

ghost use Rattle.std.specs.Prelude.{◌≡◌};
ghost use Rattle.hop.specs.Read.{job_length};

mod bits;
mod kinds;
mod reader;
mod refusals;
mod rules;
mod writer;

pub use kinds::Kind;
pub use reader::{checked, numbers_into, numbers_of, read, read_into};
pub use refusals::{Refusal, board, number};
pub use writer::write;

// How few boards a ring has, and how many.
pub const FEWEST_BOARDS: usize = 2;

pub const MOST_BOARDS: usize = 128;

// What is known of a ring before its boards' numbers: its kind, and how many boards it has.
#[derive(Clone, Copy, Debug, PartialEq, Eq)]
pub struct Shape {
    pub kind: Kind,
    pub n: u8,
}

// A job: the answer of its check, and the boards' numbers beside it; zeros where it is refused. Arrays beside the answer are document 01's form, and
// `read` promises the zeros (`job_of`).
#[derive(Drop)]
pub struct Job {
    pub answer: Result<Shape, Refusal>,
    pub loads: [u16; MOST_BOARDS],
    pub surpluses: [i16; MOST_BOARDS],
    pub costs: [u16; MOST_BOARDS],
}

impl Job {
    // A job to read into: refused by 1, with zeros beside it.
    pub const UNREAD: Job = Job {
        answer: Err(Refusal::TooShort),
        loads: [0; MOST_BOARDS],
        surpluses: [0; MOST_BOARDS],
        costs: [0; MOST_BOARDS],
    };
}

// The numbers of one board.
#[derive(Clone, Copy, Debug, PartialEq, Eq)]
pub struct Numbers {
    pub load: u16,
    pub surplus: i16,
    pub cost: u16,
}

// The length of a job of n boards, and so the place of board n's numbers in a longer one.
pub fn job_length(n: u8) -> usize
    ensures { result ≡ job_length n }
{
    7 + 6 * usize::from(n)
}
