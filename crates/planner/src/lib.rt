// The planner: from a job's bytes to a plan's bytes in a lent buffer.
#![tactic(auto)]

ghost use Rattle.std.specs.Prelude.{◌≡◌, length};
ghost use Rattle.hop.specs.Read.{job_of};
ghost use Rattle.planner.specs.Answer.{weighed_of, answer_for, memory_for, plan_answer, plan_memory};
ghost use Rattle.planner.specs.Held.{ring_held};

mod accepted;
mod crossings;
mod levels;
mod links;
mod records;
mod sums;
mod turning;

use accepted::AcceptedRing;
pub use crossings::traffic_of;
use hop::{Job, MOST_BOARDS, Refusal};
use sums::{Outline, outline_of};
pub use turning::turn_of;

// A plan's numbers.
#[derive(Clone, Copy, Debug, PartialEq, Eq)]
pub struct Planned {
    pub finish: u32,
    pub moves: u32,
    pub tight: u8,
}

// What each board sends and receives, by its number; 0 past the last board. Two arrays side by side, as `traffic_of` promises them.
#[derive(Drop)]
pub struct Traffic {
    pub sends: [u32; MOST_BOARDS],
    pub receives: [u32; MOST_BOARDS],
}

// How many columns the boards have in all, and the one that board 0 begins with after the plan.
#[derive(Clone, Copy)]
pub struct Turn {
    pub columns: u32,
    pub first: u32,
}

// Refusals 12 and 13, or the plan's numbers. The finish is compared and no `try_from` asked: the must-fail edit refuses_everything holds the test.
fn weighed(o: Outline, room: usize) -> Result<Planned, Refusal>
    ensures { result ≡ weighed_of o.finish.0 o.moves.0 o.tight room }
{
    let ticks = o.finish.0;
    let items = o.moves.0;
    if 4294967295 < ticks {
        return Err(Refusal::TooLate);
    }
    if room < 15 + 6 * (items as usize) {
        return Err(Refusal::NoRoom);
    }
    Ok(Planned {
        finish: ticks as u32,
        moves: items,
        tight: o.tight,
    })
}

// The plan of an accepted ring into a lent buffer.
fn plan_ring(ring: &AcceptedRing, buf: &mut [u8]) -> Result<Planned, Refusal>
    ensures value { result ≡ answer_for (ring_held ring.now) (length buf.old) }
    ensures buf_after { buf.new ≡ memory_for (ring_held ring.now) result buf.old }
{
    let o = outline_of(ring);
    let planned = weighed(o, buf.len())?;
    records::put_head(buf, ring.shape, planned);
    links::put_links(buf, ring, o);
    Ok(planned)
}

// What the plan of an accepted ring is answered with.
fn weigh_ring(ring: &AcceptedRing, room: usize) -> Result<Planned, Refusal>
    ensures { result ≡ answer_for (ring_held ring.now) room }
{
    weighed(outline_of(ring), room)
}

// What `plan` answers with so many bytes of room. Nothing is written. The job is opened in three lines, as in `traffic_of` and `turn_of`, which answer
// zeros for a refusal: one function with a closure over rings is no plainer.
pub fn weigh(s: &[u8], room: usize) -> Result<Planned, Refusal>
    ensures { result ≡ plan_answer (job_of s.now) room }
{
    let job = hop::read(s);
    let shape = job.answer?;
    weigh_ring(&AcceptedRing::new(shape, &job), room)
}

// The plan of a job into a lent buffer: its numbers, or the first refusal of 1 to 13, which leaves the buffer as it was. The job is put together in
// place, since one that `hop::read` returns by value stands on the stack twice; a refused one is not made at all.
pub fn plan(s: &[u8], buf: &mut [u8]) -> Result<Planned, Refusal>
    ensures value { result ≡ plan_answer (job_of s.now) (length buf.old) }
    ensures buf_after { buf.new ≡ plan_memory (job_of s.now) buf.old }
{
    let shape = hop::checked(s)?;
    let mut job = Job::UNREAD;
    job.answer = Ok(shape);
    hop::numbers_into(s, shape.n, &mut job);
    plan_ring(&AcceptedRing::new(shape, &job), buf)
}
