// What is printed of a call: what it was lent, what it answered, and numbers of a list.
use hop::Refusal;
use planner::Planned;
use std::fmt;

// How many bytes of a plan's buffer and how many places of a list a call is lent.
#[derive(Clone, Copy)]
pub(crate) struct Lent {
    pub(crate) bytes: usize,
    pub(crate) places: usize,
}

impl Lent {
    // With a byte less.
    pub(crate) fn less(self) -> Lent {
        Lent {
            bytes: self.bytes.saturating_sub(1),
            ..self
        }
    }

    // With a place fewer.
    pub(crate) fn fewer(self) -> Lent {
        Lent {
            places: self.places.saturating_sub(1),
            ..self
        }
    }
}

impl fmt::Display for Lent {
    fn fmt<W: fmt::Write>(&self, f: &mut fmt::Formatter<W>) -> fmt::Result {
        write!(f, "bytes {} places {}", self.bytes, self.places)
    }
}

// What the planner answers.
#[derive(Clone, Copy)]
pub(crate) struct Answer(pub(crate) Result<Planned, Refusal>);

impl Answer {
    // How many sends the plan has, none where there is no plan.
    pub(crate) fn moves(self) -> u32 {
        self.0.map_or(0, |plan| plan.moves)
    }
}

impl fmt::Display for Answer {
    fn fmt<W: fmt::Write>(&self, f: &mut fmt::Formatter<W>) -> fmt::Result {
        match self.0 {
            Ok(plan) => write!(
                f,
                "finish {} moves {} tight {}",
                plan.finish, plan.moves, plan.tight
            ),
            Err(refusal) => write!(f, "{refusal}"),
        }
    }
}

// Numbers of a list, each after a space.
#[derive(Clone, Copy)]
pub(crate) struct Listed<'a>(pub(crate) &'a [u32]);

impl fmt::Display for Listed<'_> {
    fn fmt<W: fmt::Write>(&self, f: &mut fmt::Formatter<W>) -> fmt::Result {
        for number in self.0 {
            write!(f, " {number}")?;
        }
        Ok(())
    }
}
