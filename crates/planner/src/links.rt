// The records of the links. A link's sends that wait are started by the records of the link before, which stand in the plan already: nothing is kept
// beside them, and the time goes by the sends.
ghost use Rattle.std.specs.Prelude.{◌≡◌, ◌++◌, ◌+◌, ◌*◌, ◌-◌, ◌<◌, ◌≤◌, length, take, drop};
ghost use Rattle.ring.specs.Plan as plan;
ghost use Rattle.hop.specs.Kinds.{number_of};
ghost use Rattle.planner.specs.Held.{ring_held};
ghost use Rattle.planner.specs.PlanBytes.{plan_length};
ghost use Rattle.planner.specs.Outline.{outline_of};
ghost use Rattle.planner.specs.Links.{link_bytes, direction_by, start_two, arrives_in, start_fed, PlaceOf, place_after, Fed, links_after};

use crate::accepted::AcceptedRing;
use crate::levels::risen;
use crate::records::{Direction, HEAD, put_run, put_send};
use crate::sums::Outline;
use hop::Kind;
use ring::{Items, Ticks, link_time};

// A link, and the byte of the plan at which its records begin.
#[derive(Clone, Copy)]
struct Place {
    link: usize,
    at: usize,
}

// What the sends of a one-way link wait for: past so many of its board's own load, the link before, whose records begin at `from` and whose items
// take `cost` ticks.
#[derive(Clone, Copy)]
struct Feed {
    from: usize,
    load: usize,
    cost: u16,
}

// A link of a two-way ring: forward from tick 0 on, or back up to the last round.
fn put_two_way(part: &mut [u8], link: u8, level: u32, offset: u32, rounds: u32, cost: u16)
    requires fits { 6 * ((level - offset) + (offset - level)) ≤ length part.old }
    requires in_time { (offset - level ≤ rounds) × (rounds * cost < 4294967296) }
    ensures { part.new ≡ link_bytes link (direction_by level offset) (start_two level offset rounds cost) ((level - offset) + (offset - level)) ++ drop (6 * ((level - offset) + (offset - level))) part.old }
{
    if level < offset {
        let items = offset - level;
        let first = link_time(cost, Items(rounds - items));
        put_run(part, link, Direction::Back, items, first.0, cost);
    } else {
        put_run(part, link, Direction::Forward, level - offset, 0, cost);
    }
}

// The links of a two-way ring, each in the part that begins at its offset.
fn put_two_ways(buf: &mut [u8], ring: &AcceptedRing, o: Outline)
    requires two_way { number_of ring.now.shape.kind ≡ 3 }
    requires known { o ≡ outline_of (ring_held ring.now) }
    requires fits { plan_length (ring_held ring.now) ≤ length buf.old }
    ensures { buf.new ≡ links_after (ring_held ring.now) buf.old }
{
    let offset = o.offset;
    let rounds = o.rounds;
    let mut at = HEAD;
    for (link, (level, cost)) in ring.levels().zip(ring.costs).enumerate() {
        put_two_way(&mut buf[at..], link as u8, level, offset, rounds.0, *cost);
        at += 6 * (level.abs_diff(offset) as usize);
    }
}

// When the item that send x waits for is there, and 0 where it is one of the board's own.
fn arrival(buf: &[u8], feed: Feed, x: usize) -> Ticks
    requires { feed.load ≤ x → feed.from + 6 * (x - feed.load) + 6 ≤ length buf.now }
    ensures { (result.0 ≡ arrives_in buf.now feed x) × (result.0 < 4294967296 + 65536) }
{
    if x < feed.load {
        return Ticks(0);
    }
    let at = feed.from + 6 * (x - feed.load) + 2;
    let start = ring::quad(buf[at], buf[at + 1], buf[at + 2], buf[at + 3]);
    ring::end_of(start, feed.cost)
}

// A link of a one-way ring, in its place: each send starts when the one before it has ended and the item that it waits for is there.
fn put_one_way(buf: &mut [u8], here: Place, count: u32, cost: u16, feed: Feed)
    requires { Fed buf.old here count feed }
    ensures { buf.new ≡ (take here.at buf.old ++ link_bytes here.link 0 (start_fed (arrives_in buf.old feed) cost) count) ++ drop (here.at + 6 * count) buf.old }
{
    // by number, since the records that the sends wait for stand in the same buffer
    let n = count as usize;
    let link = here.link as u8;
    let from = here.at;
    let mut free = Ticks(0);
    for x in 0..n {
        let start = free.max(arrival(buf, feed, x)).0;
        put_send(&mut buf[from..], link, Direction::Forward, x, start);
        free = Ticks(start + u64::from(cost));
    }
}

// A link of a one-way ring that carries nothing. The offset is the level of one, so the walk comes to it.
fn idle_of(ring: &AcceptedRing, offset: u32) -> Place
    requires one_way { number_of ring.now.shape.kind ≡ 3 → ⊥ }
    requires known { offset ≡ plan.offset (ring_held ring.now) }
    ensures carries { plan.carries (ring_held ring.now) offset result.link ≡ 0 }
    ensures place { PlaceOf (ring_held ring.now) result }
{
    let mut at = HEAD;
    for (link, level) in ring.levels().enumerate() {
        if level == offset {
            return Place { link, at };
        }
        at += 6 * ((level - offset) as usize);
    }
    unreachable!()
}

// The link after one of n that carries so many items, and where its records begin.
fn place_after(here: Place, count: u32, n: usize) -> Place
    requires { (here.link < n) × (here.at + 6 * count < 4294967296) }
    ensures { result ≡ place_after here count n }
{
    if here.link + 1 == n {
        return Place { link: 0, at: HEAD };
    }
    Place {
        link: here.link + 1,
        at: here.at + 6 * (count as usize),
    }
}

// The links of a one-way ring, gone round from a link that carries nothing, so that the link before has its records when a link's sends wait for them.
fn put_one_ways(buf: &mut [u8], ring: &AcceptedRing, offset: u32)
    requires one_way { number_of ring.now.shape.kind ≡ 3 → ⊥ }
    requires known { offset ≡ plan.offset (ring_held ring.now) }
    requires fits { plan_length (ring_held ring.now) ≤ length buf.old }
    ensures { buf.new ≡ links_after (ring_held ring.now) buf.old }
{
    let n = usize::from(ring.shape.n);
    let mut here = idle_of(ring, offset);
    let mut count: u32 = 0;
    // k counts the links that are come to: the must-fail edit link_left_out holds the range
    for k in 1..n {
        let from = here.at;
        let cost = ring.costs[here.link];
        here = place_after(here, count, n);
        count = risen(count, ring.surpluses[here.link]);
        let feed = Feed {
            from,
            load: usize::from(ring.loads[here.link]),
            cost,
        };
        put_one_way(buf, here, count, ring.costs[here.link], feed);
    }
}

// The records of all links after the head. What is known of the outline and the room stands in three functions: a struct of ring, outline and buffer
// would be taken apart again where the buffer is read and written, and is no plainer.
pub(crate) fn put_links(buf: &mut [u8], ring: &AcceptedRing, o: Outline)
    requires known { o ≡ outline_of (ring_held ring.now) }
    requires fits { plan_length (ring_held ring.now) ≤ length buf.old }
    ensures { buf.new ≡ links_after (ring_held ring.now) buf.old }
{
    if ring.shape.kind == Kind::TwoWay {
        put_two_ways(buf, ring, o);
    } else {
        put_one_ways(buf, ring, o.offset);
    }
}
