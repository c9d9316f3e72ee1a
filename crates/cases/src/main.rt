// Runs the rings that document 01 works by hand, and three for the tight link: each one's answer and records, the plan's buffer exact and a byte
// short, the loads at telling ticks, and the columns after the plan. Then the columns of a refused job and of a ring with more than 65,536 of them, and the loads
// of a ring in which a board's load passes 65,535 on the way.
#![tactic(auto)]

mod lists_after;
mod rings;
mod told;
mod wide;

use rings::{RINGS, Ring};
use std::io;
use told::{Answer, Lent, Listed};

// The bytes of a plan's buffer: more than these rings' plans have, but for the wide ring's.
const ROOM: usize = 120;

// What every byte of a plan's buffer is before it is lent; no plan in such a buffer has the byte.
const UNTOUCHED: u8 = 170;

// What every place of a list is before it is lent; no load and no column that is to be shown has that number.
const UNTOLD: u32 = 77;

// The places of a list: one more than the largest of these rings has boards, and more than the worked rings have columns.
const PLACES: usize = 34;

// All of a buffer and of a list.
const ALL: Lent = Lent {
    bytes: ROOM,
    places: PLACES,
};

// The bytes of a job's buffer: more than the longest of the worked rings' jobs has, with six boards.
const JOB: usize = 60;

// The bytes of a plan before its records, and those of a record.
const HEAD: usize = 15;

const RECORD: usize = 6;

// The first n, or all where there are fewer.
fn first<T>(all: &mut [T], n: usize) -> &mut [T] {
    let end = n.min(all.len());
    &mut all[..end]
}

// At how many places two buffers have the same byte.
fn alike(a: &[u8], b: &[u8]) -> usize {
    a.iter().zip(b).filter(|(x, y)| x == y).count()
}

// The loads of a job of so many boards at a tick, asked for with so much of a plan's buffer and of a fresh list, and the place after them.
fn show_loads(
    rt: &impl Print,
    job: &[u8],
    boards: usize,
    tick: u32,
    plan: &mut [u8],
    lent: Lent,
) -> io::Result<()> {
    let mut list = [UNTOLD; PLACES];
    let places = first(&mut list, lent.places);
    let answer = Answer(loads::loads(job, tick, first(plan, lent.bytes), places));
    let shown = Listed(first(&mut list, boards.saturating_add(1)));
    print!(rt; "  at {tick} {lent} loads{shown} {answer}")
}

// A job of a ring, and what the planner answers and writes into a buffer of its own, beside which the buffers of other calls are held.
#[derive(Drop)]
struct Case<'r, 'j> {
    ring: &'r Ring<'r>,
    job: &'j [u8],
    answer: Answer,
    whole: [u8; ROOM],
}

impl<'r, 'j> Case<'r, 'j> {
    fn new(ring: &'r Ring<'r>, job: &'j [u8]) -> Self {
        let mut whole = [UNTOUCHED; ROOM];
        let answer = Answer(planner::plan(job, &mut whole));
        Case {
            ring,
            job,
            answer,
            whole,
        }
    }

    // How many bytes the plan has.
    fn length(&self) -> usize {
        HEAD + RECORD * (self.answer.moves() as usize)
    }

    // The records of the plan, each with the bytes of its start.
    fn show_records(&self, rt: &impl Print) -> io::Result<()> {
        let (records, _) = self.whole[HEAD..].as_chunks::<RECORD>();
        for [link, direction, a, b, c, d] in records.iter().take(self.answer.moves() as usize) {
            println!(rt; "  link {link} direction {direction} start {a} {b} {c} {d}")?;
        }
        Ok(())
    }

    // How many bytes of a plan's buffer are as in the whole one, and how many as they were before.
    fn show_left(&self, rt: &impl Print, plan: &[u8]) -> io::Result<()> {
        let alike = alike(&self.whole, plan);
        let kept = plan.iter().filter(|byte| **byte == UNTOUCHED).count();
        println!(rt; " alike {alike} kept {kept}")
    }

    // A plan in so many bytes of a fresh buffer.
    fn show_plan(&self, rt: &impl Print, bytes: usize) -> io::Result<()> {
        let mut plan = [UNTOUCHED; ROOM];
        let answer = Answer(planner::plan(self.job, first(&mut plan, bytes)));
        print!(rt; "  bytes {bytes} {answer}")?;
        self.show_left(rt, &plan)
    }

    // The loads at a tick, asked for with so much of a fresh buffer and of a fresh list.
    fn show_query(&self, rt: &impl Print, tick: u32, lent: Lent) -> io::Result<()> {
        let mut plan = [UNTOUCHED; ROOM];
        show_loads(rt, self.job, self.ring.loads.len(), tick, &mut plan, lent)?;
        self.show_left(rt, &plan)
    }

    // A plan's buffer exact and a byte short; the loads at tick 1 with all exact, with a place short, and with a byte and a place short.
    fn show_exact(&self, rt: &impl Print) -> io::Result<()> {
        let exact = Lent {
            bytes: self.length(),
            places: self.ring.loads.len(),
        };
        self.show_plan(rt, exact.bytes)?;
        self.show_plan(rt, exact.less().bytes)?;
        self.show_query(rt, 1, exact)?;
        self.show_query(rt, 1, exact.fewer())?;
        self.show_query(rt, 1, exact.fewer().less())
    }

    // The loads at each of the ring's ticks, in a list of one place more than there are boards.
    fn show_ticks(&self, rt: &impl Print) -> io::Result<()> {
        let places = self.ring.loads.len().saturating_add(1);
        for tick in self.ring.ticks {
            self.show_query(rt, *tick, Lent { places, ..ALL })?;
        }
        Ok(())
    }
}

// A ring's answer and records, then its plan and its loads in other buffers and lists, then its loads at each tick, then its columns.
fn show<'r>(rt: &impl Print, ring: &'r Ring<'r>) -> io::Result<()> {
    let mut bytes = [0; JOB];
    let length = ring.write(&mut bytes);
    let case = Case::new(ring, &bytes[..length.min(JOB)]);
    println!(rt; "{} {}", ring.label, case.answer)?;
    case.show_records(rt)?;
    case.show_exact(rt)?;
    case.show_ticks(rt)?;
    case.show_columns(rt)
}

fn main(rt: HostRuntime) -> io::Result<()> {
    for ring in &RINGS {
        show(&rt, ring)?;
    }
    lists_after::show_cut(&rt, &RINGS[0])?;
    lists_after::show_many(&rt)?;
    wide::show_wide(&rt)
}
