// The numbers of a plan, from the numbers of an accepted ring.
ghost use Rattle.std.specs.Prelude.{◌≡◌, ◌+◌, ◌*◌, ◌-◌, ◌/◌, ◌<◌, max, eqb, ltb};
ghost use Rattle.ring.specs.Numbers.{pick, greatest};
ghost use Rattle.ring.specs.Lists.{each};
ghost use Rattle.ring.specs.Plan as plan;
ghost use Rattle.hop.specs.Kinds.{number_of};
ghost use Rattle.planner.specs.Held.{ring_held};
ghost use Rattle.planner.specs.Outline.{span_of, rounds_of, tally_of, outline_of};

use crate::accepted::AcceptedRing;
use hop::Kind;
use ring::{Items, Ticks, link_time};

// The numbers of a plan. The links carry the difference of their level and the offset, forward where the level is more, back where it is less.
// `rounds` is T in kind 3.
#[derive(Clone, Copy)]
pub(crate) struct Outline {
    pub(crate) offset: u32,
    pub(crate) rounds: Items,
    pub(crate) moves: Items,
    pub(crate) tight: u8,
    pub(crate) finish: Ticks,
}

// The least and the greatest level.
#[derive(Clone, Copy)]
struct Span {
    low: u32,
    high: u32,
}

// What the links carry together, the tight link, and how long that one takes for its items: none takes longer.
#[derive(Clone, Copy)]
struct Tally {
    moves: Items,
    tight: u8,
    slowest: Ticks,
}

impl Tally {
    // The tally with one link more, that carries so many items in so long a time: it is the tight link where each before it takes less.
    fn with_link(self, link: u8, items: u32, time: Ticks) -> Self
        requires { self.moves.0 + items < 4294967296 }
        ensures moves_value { result.moves.0 ≡ self.moves.0 + items }
        ensures tight_value { result.tight ≡ pick (ltb self.slowest.0 time.0) link self.tight }
        ensures slowest_value { result.slowest.0 ≡ max self.slowest.0 time.0 }
    {
        let moves = Items(self.moves.0 + items);
        if self.slowest < time {
            Tally {
                moves,
                tight: link,
                slowest: time,
            }
        } else {
            Tally { moves, ..self }
        }
    }
}

// The least and the greatest level. The walk begins with the level of the last link, which is the total.
fn span_of(ring: &AcceptedRing) -> Span
    ensures { result ≡ span_of (ring_held ring.now) }
{
    let mut low = ring.total;
    let mut high = ring.total;
    for level in ring.levels() {
        low = low.min(level);
        high = high.max(level);
    }
    Span { low, high }
}

// The largest |surplus|.
fn largest_surplus(ring: &AcceptedRing) -> u32
    ensures { result ≡ greatest (plan.surplus_size (ring_held ring.now)) (ring.now.shape.n - 1) }
{
    let mut most: u32 = 0;
    for surplus in &ring.surpluses[..usize::from(ring.shape.n)] {
        most = most.max(u32::from(surplus.unsigned_abs()));
    }
    most
}

// T of a kind 3 ring whose levels spread so far; 0 for another kind, which asks for none.
#[tactic(auto, unfolding(ring::specs::Plan::rounds))]
fn rounds(ring: &AcceptedRing, spread: u32) -> u32
    requires { spread ≡ plan.R (ring_held ring.now) }
    ensures { result ≡ rounds_of (ring_held ring.now) }
{
    if ring.shape.kind == Kind::TwoWay {
        largest_surplus(ring).max(spread.div_ceil(2))
    } else {
        0
    }
}

// The number taken from every level, from the least level and how far the levels spread.
#[tactic(auto, unfolding(ring::specs::Plan::offset))]
fn offset(ring: &AcceptedRing, low: u32, spread: u32) -> u32
    requires { (low ≡ plan.low (ring_held ring.now)) × (spread ≡ plan.R (ring_held ring.now)) }
    ensures { result ≡ plan.offset (ring_held ring.now) }
{
    if ring.shape.kind == Kind::TwoWay {
        low + spread / 2
    } else {
        low
    }
}

// What the links carry, each the difference of its level and the offset, and the slowest of them.
fn tally_of(ring: &AcceptedRing, offset: u32) -> Tally
    requires { offset ≡ plan.offset (ring_held ring.now) }
    ensures { result ≡ tally_of (ring_held ring.now) offset }
{
    let mut tally = Tally {
        moves: Items(0),
        tight: 0,
        slowest: Ticks(0),
    };
    for (link, (level, cost)) in ring.levels().zip(ring.costs).enumerate() {
        let items = level.abs_diff(offset);
        tally = tally.with_link(link as u8, items, link_time(*cost, Items(items)));
    }
    tally
}

// The finish of a kind 3 ring is that of its rounds, of another that of its slowest link.
fn finish(ring: &AcceptedRing, rounds: Items, slowest: Ticks) -> Ticks
    ensures { result.0 ≡ pick (eqb (number_of ring.now.shape.kind) 3) (rounds.0 * each ring.now.costs.now 0) slowest.0 }
{
    if ring.shape.kind == Kind::TwoWay {
        link_time(ring.costs[0], rounds)
    } else {
        slowest
    }
}

// The numbers of the plan of a ring.
pub(crate) fn outline_of(ring: &AcceptedRing) -> Outline
    ensures { result ≡ outline_of (ring_held ring.now) }
{
    let span = span_of(ring);
    let spread = span.high - span.low;
    let offset = offset(ring, span.low, spread);
    let rounds = Items(rounds(ring, spread));
    let tally = tally_of(ring, offset);
    Outline {
        offset,
        rounds,
        moves: tally.moves,
        tight: tally.tight,
        finish: finish(ring, rounds, tally.slowest),
    }
}
