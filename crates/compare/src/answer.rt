// What either planner answers, in numbers, so that the two can be held beside each other.
use crate::second::Outcome;
use crate::table::Refusal;
use planner::Planned;

// A refusal's number and board. It is made of either program's refusal, whose types share nothing that both could be read by.
#[derive(Clone, Copy, Debug, PartialEq, Eq)]
pub(crate) struct Refused {
    number: u8,
    board: u8,
}

impl From<Refusal> for Refused {
    fn from(refusal: Refusal) -> Self {
        Refused {
            number: refusal.number(),
            board: refusal.board(),
        }
    }
}

impl From<hop::Refusal> for Refused {
    fn from(refusal: hop::Refusal) -> Self {
        Refused {
            number: refusal.number(),
            board: refusal.board(),
        }
    }
}

impl From<Planned> for Outcome {
    fn from(planned: Planned) -> Self {
        Outcome {
            finish: planned.finish,
            moves: planned.moves,
            tight: planned.tight,
        }
    }
}

pub(crate) type Answer = Result<Outcome, Refused>;

// The planner's answer.
pub(crate) fn answer_of(planned: Result<Planned, hop::Refusal>) -> Answer {
    planned.map(Outcome::from).map_err(Refused::from)
}
