// The ring of an accepted job.
ghost use Rattle.std.specs.Prelude.{◌≡◌, ◌≤◌, length};
ghost use Rattle.std.specs.List as list;
ghost use Rattle.ring.specs.Numbers.{sum};
ghost use Rattle.ring.specs.Lists.{each};
ghost use Rattle.hop.specs.Kinds.{number_of};
ghost use Rattle.planner.specs.Lent.{Lent};

use crate::levels::Levels;
use hop::{Job, Shape};

// An accepted ring of n boards, whose numbers are lent: board i has place i of each list, as a job's arrays stand by document 01. `total` is the items of all boards, and so the level of
// the last link.
#[derive(Clone, Copy)]
pub(crate) struct AcceptedRing<'a> {
    pub(crate) shape: Shape,
    pub(crate) loads: &'a [u16],
    pub(crate) surpluses: &'a [i16],
    pub(crate) costs: &'a [u16],
    pub(crate) total: u32,
    ghost lent: { Lent (number_of shape.kind) shape.n loads.now surpluses.now costs.now },
    ghost added: { total ≡ sum (each loads.now) shape.n },
}

// The items of so many boards.
fn items(loads: &[u16]) -> u32
    requires { length loads.now ≤ 128 }
    ensures { result ≡ list.sum loads.now }
{
    loads.iter().map(|load| u32::from(*load)).sum()
}

impl<'a> AcceptedRing<'a> {
    ghost use Rattle.std.specs.Prelude.{◌≡◌};
    ghost use Rattle.hop.specs.Kinds.{number_of};
    ghost use Rattle.ring.specs.Lists.{up_to};
    ghost use Rattle.ring.specs.Plan.{level};
    ghost use Rattle.planner.specs.Lent.{Lent};
    ghost use Rattle.planner.specs.Levels.{levels_from};
    ghost use Rattle.planner.specs.Answer.{ring_for};
    ghost use Rattle.planner.specs.Held.{ring_held};

    // The ring of a job that was read as one of this shape.
    pub(crate) fn new(shape: Shape, job: &'a Job) -> Self
        requires { Lent (number_of shape.kind) shape.n job.now.loads job.now.surpluses job.now.costs }
        ensures { ring_held result ≡ ring_for job.now shape }
    {
        AcceptedRing {
            shape,
            loads: &job.loads,
            surpluses: &job.surpluses,
            costs: &job.costs,
            total: items(&job.loads[..usize::from(shape.n)]),
        }
    }

    // The levels of the links, from link 0 on.
    pub(crate) fn levels(&self) -> Levels<'a>
        ensures { levels_from result.level result.surpluses.now ≡ up_to (level (ring_held self.now)) self.now.shape.n }
    {
        Levels::new(self.total, &self.surpluses[..usize::from(self.shape.n)])
    }
}
