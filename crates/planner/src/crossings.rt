// What each board of a job sends and receives.
ghost use Rattle.std.specs.Prelude.{◌≡◌};
ghost use Rattle.hop.specs.Read.{job_of};
ghost use Rattle.planner.specs.Held.{ring_held};
ghost use Rattle.planner.specs.Traffic.{traffic_in, traffic_of};

use crate::Traffic;
use crate::accepted::AcceptedRing;
use crate::sums::outline_of;
use hop::MOST_BOARDS;

// The traffic of an accepted ring: board i sends forward on link i and back on the link before it, and receives the other way about.
fn traffic_ring(ring: &AcceptedRing) -> Traffic
    ensures { result ≡ traffic_in (ring_held ring.now) }
{
    let offset = outline_of(ring).offset;
    let mut sends = [0; MOST_BOARDS];
    let mut receives = [0; MOST_BOARDS];
    let mut last = ring.total;
    // by board, since a proof knows nothing of what the items of an adapter of `iter_mut` end as
    for (board, level) in ring.levels().enumerate() {
        sends[board] = level.saturating_sub(offset) + offset.saturating_sub(last);
        receives[board] = last.saturating_sub(offset) + offset.saturating_sub(level);
        last = level;
    }
    Traffic { sends, receives }
}

// The sends and the receipts of each board in the plan of a job. A refused job has none, as the spec's `traffic_of` promises.
pub fn traffic_of(s: &[u8]) -> Traffic
    ensures { result ≡ traffic_of (job_of s.now) }
{
    let job = hop::read(s);
    let Ok(shape) = job.answer else {
        return Traffic {
            sends: [0; MOST_BOARDS],
            receives: [0; MOST_BOARDS],
        };
    };
    traffic_ring(&AcceptedRing::new(shape, &job))
}
