// The loads query: the plan of a job in a lent buffer, and the load of each board at a tick in a lent list.
#![tactic(auto)]

ghost use Rattle.std.specs.Prelude.{◌≡◌, [], ℕ, ◌+◌, ◌<◌, ◌≤◌, eqb, length, get_or, replicate, slice_index_or};
ghost use Rattle.ring.specs.Numbers.{pick};
ghost use Rattle.ring.specs.Lists.{up_to};
ghost use Rattle.ring.specs.Boards.{next};
ghost use Rattle.hop.specs.Read.{job_of};
ghost use Rattle.planner.specs.PlanBytes.{record_place, record_at, records_in};
ghost use Rattle.loads.specs.Counts.{nothing, links_in, Counted, left_with, Covered};
ghost use Rattle.loads.specs.Query.{query_answer, query_plan, query_loads};

use hop::{MOST_BOARDS, Refusal};
use planner::Planned;
use ring::Ticks;

// What a board has received and sent by a tick.
#[derive(Clone, Copy)]
struct Count {
    received: u32,
    sent: u32,
}

impl Count {
    const NOTHING: Count = Count {
        received: 0,
        sent: 0,
    };
}

// The board after board i of n.
fn next(i: usize, n: usize) -> usize
    requires { i < n }
    ensures { result ≡ next n i }
{
    if i + 1 == n { 0 } else { i + 1 }
}

// A send as a plan's record says it: its link, its direction, 0 forward and 1 back, and the tick at which it starts. The direction stays a byte, as
// `record_at` reads it: the bytes of any plan are counted, and `pick` takes every number but 0 for back.
#[derive(Clone, Copy)]
struct Record {
    link: usize,
    direction: u8,
    start: u32,
}

impl From<&[u8; 6]> for Record {
    ghost use Rattle.planner.specs.PlanBytes.{record_at};
    ghost use Rattle.loads.specs.Counts.{send_of};

    ghost from_gives = { λ b r. send_of r ≡ record_at b.now 0 };

    fn from(bytes: &[u8; 6]) -> Record {
        let [link, direction, a, b, c, d] = *bytes;
        Record {
            link: usize::from(link),
            direction,
            start: ring::quad(a, b, c, d),
        }
    }
}

// The boards of n that send and receive it: forward over a link from its own board to the next, back from the next to its own.
fn sides(send: Record, n: usize) -> (usize, usize)
    requires { send.link < n }
    ensures from { result.0 ≡ pick (eqb send.direction 0) send.link (next n send.link) }
    ensures to { result.1 ≡ pick (eqb send.direction 0) (next n send.link) send.link }
    ensures on_ring { (result.0 < n) × (result.1 < n) }
{
    let ahead = next(send.link, n);
    if send.direction == 0 {
        (send.link, ahead)
    } else {
        (ahead, send.link)
    }
}

// The bytes of a plan's records, one after another.
fn records(plan: &[u8], moves: u32) -> &[[u8; 6]]
    requires { record_place moves ≤ length plan.now }
    ensures many { length result.now ≡ moves }
    ensures in_turn { (k : ℕ) → k < moves → record_at (slice_index_or result.now k []) 0 ≡ record_at plan.now (record_place k) }
{
    let end = 15 + 6 * (moves as usize);
    plan[15..end].as_chunks().0
}

// Counts what each of n boards has received and sent by a tick, of the sends that a plan's records say.
fn count_sends(
    plan: &[u8],
    moves: u32,
    n: usize,
    costs: &[u16; MOST_BOARDS],
    tick: u32,
    counts: &mut [Count; MOST_BOARDS],
)
    requires lengths { (n ≤ 128) × (record_place moves ≤ length plan.now) }
    requires links_below { (k : ℕ) → k < moves → get_or plan.now (record_place k) 0 < n }
    requires nothing_yet { counts.old ≡ replicate 128 nothing }
    ensures { Counted (links_in n costs.now) (records_in plan.now moves) tick counts.new }
{
    let now = Ticks(u64::from(tick));
    for record in records(plan, moves) {
        let send = Record::from(record);
        let end = ring::end_of(send.start, costs[send.link]);
        let (from, to) = sides(send, n);
        counts[to].received += u32::from(end <= now);
        counts[from].sent += u32::from(send.start < tick);
    }
}

// The load of each board of a list: its first load, and what it received, less what it sent.
#[tactic(auto, unfolding(ring::specs::Lists::joined))]
fn tell(loads: &[u16; MOST_BOARDS], counts: &[Count; MOST_BOARDS], list: &mut [u32])
    requires { (length list.old ≤ 128) × Covered (length list.old) loads.now counts.now }
    ensures { list.new ≡ up_to (left_with loads.now counts.now) (length list.old) }
{
    // By place, since a proof knows nothing of what the items of another adapter of `iter_mut`, as `zip`, end as.
    for (i, load) in list.iter_mut().enumerate() {
        let count = counts[i];
        *load = u32::from(loads[i]) + count.received - count.sent;
    }
}

// The plan of a job, left in the buffer, and the load of each board at a tick, left in the list's first places.
pub fn loads(s: &[u8], tick: u32, buf: &mut [u8], list: &mut [u32]) -> Result<Planned, Refusal>
    ensures value { result ≡ query_answer (job_of s.now) (length buf.old) (length list.old) }
    ensures buf_after { buf.new ≡ query_plan (job_of s.now) (length list.old) buf.old }
    ensures list_after { list.new ≡ query_loads (job_of s.now) tick (length buf.old) list.old }
{
    let job = hop::read(s);
    let boards = job.answer.map_or(0, |shape| usize::from(shape.n));
    let planned = lists::plan_for(s, buf, boards, list.len(), 14)?;
    let mut counts = [Count::NOTHING; MOST_BOARDS];
    count_sends(buf, planned.moves, boards, &job.costs, tick, &mut counts);
    tell(&job.loads, &counts, &mut list[..boards]);
    Ok(planned)
}
