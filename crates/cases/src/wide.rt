// A ring in which a board's load passes 65,535 on the way: its loads at telling ticks.
use crate::rings::Ring;
use crate::told::Lent;
use crate::{PLACES, UNTOUCHED, show_loads};
use hop::Kind;
use std::io;

// The wide ring's boards, the bytes of its job, and those of its plan, with 983,808 sends. The plan stands on the stack, which has to have some 6 MB.
const BOARDS: usize = 33;

const JOB: usize = 205;

const PLAN: usize = 5902863;

// Both fields are written here: with `..` and main's ALL the check of `show_tick` ran past its steps.
const ALL: Lent = Lent {
    bytes: PLAN,
    places: PLACES,
};

// The loads at a tick, the plan in a fresh buffer of its length.
fn show_tick(rt: &impl Print, job: &[u8], tick: u32) -> io::Result<()> {
    let mut plan = [UNTOUCHED; PLAN];
    show_loads(rt, job, BOARDS, tick, &mut plan, ALL)?;
    println!(rt)
}

fn show_ring(rt: &impl Print, ring: &Ring) -> io::Result<()> {
    let mut bytes = [0; JOB];
    let length = ring.write(&mut bytes);
    println!(rt; "{}", ring.label)?;
    for tick in ring.ticks {
        show_tick(rt, &bytes[..length.min(JOB)], *tick)?;
    }
    Ok(())
}

// Sixteen boards shed towards board 16 at an item a tick, and it passes an item on in 8,000 ticks, to sixteen that gain: after 61,449 receipts
// and 8 sends its load is 4,095 + 61,449 - 8 = 65,536.
pub(crate) fn show_wide(rt: &impl Print) -> io::Result<()> {
    let mut loads = [1; BOARDS];
    let mut surpluses = [-4094; BOARDS];
    let mut costs = [1; BOARDS];
    loads[0] = 40;
    loads[1..17].fill(4095);
    surpluses[0] = 39;
    surpluses[1..16].fill(4094);
    surpluses[16] = 0;
    surpluses[32] = -39;
    costs[16] = 8000;
    // The fields are named here as in `lists_after::show_many`: one function for both, which takes them by place, is no plainer.
    let ring = Ring {
        label: "wide",
        kind: Kind::MixedOneWay,
        loads: &loads,
        surpluses: &surpluses,
        costs: &costs,
        ticks: &[0, 61448, 61449, 64000, 64001, 491591999, 491592000],
    };
    show_ring(rt, &ring)
}
