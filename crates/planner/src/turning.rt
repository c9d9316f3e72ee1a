// How many columns the boards of a job have in all, and with which of them board 0 begins after the plan.
ghost use Rattle.std.specs.Prelude.{◌≡◌};
ghost use Rattle.hop.specs.Read.{job_of};
ghost use Rattle.planner.specs.Held.{ring_held};
ghost use Rattle.planner.specs.Turn.{turn_in, turn_of};

use crate::Turn;
use crate::accepted::AcceptedRing;
use crate::sums::outline_of;

// The turn of an accepted ring: the total of the loads, and the offset, taken modulo that, where board 0 begins.
fn turn_ring(ring: &AcceptedRing) -> Turn
    ensures { result ≡ turn_in (ring_held ring.now) }
{
    Turn {
        columns: ring.total,
        first: outline_of(ring).offset % ring.total,
    }
}

// The turn of the plan of a job; zeros of a refused job, as the spec's `turn_of` promises.
pub fn turn_of(s: &[u8]) -> Turn
    ensures { result ≡ turn_of (job_of s.now) }
{
    let job = hop::read(s);
    let Ok(shape) = job.answer else {
        return Turn {
            columns: 0,
            first: 0,
        };
    };
    turn_ring(&AcceptedRing::new(shape, &job))
}
