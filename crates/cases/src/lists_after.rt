// The columns of a ring after its plan, shown board by board: a bar stands where a board's load after, as the ring has it, ends.
use crate::rings::Ring;
use crate::told::{Answer, Lent, Listed};
use crate::{ALL, Case, JOB, PLACES, ROOM, UNTOLD, UNTOUCHED, first};
use hop::Kind;
use std::io;

// The places of the list for the ring of many columns: one more than its columns, of which there are 4,092 + 16 × 4,095.
const MANY: usize = 69613;

// Of a board with more columns than this, the first and the last are shown.
const SHOWN: usize = 8;

// A board's load minus its surplus. That is in two's complement, so the 16-bit numbers are subtracted as they stand.
fn load_after(load: u16, surplus: i16) -> usize {
    usize::from(load.wrapping_sub(surplus.cast_unsigned()))
}

// A board's columns.
fn show_board(rt: &impl Print, columns: &[u32]) -> io::Result<()> {
    match columns {
        [first, .., last] if SHOWN < columns.len() => print!(rt; " {first} .. {last}"),
        _ => print!(rt; "{}", Listed(columns)),
    }
}

// Every board's columns, and the place past them.
fn show_boards(rt: &impl Print, ring: &Ring, list: &[u32]) -> io::Result<()> {
    let mut rest = list;
    for (board, (load, surplus)) in ring.loads.iter().zip(ring.surpluses).enumerate() {
        if 0 < board {
            print!(rt; " |")?;
        }
        let (columns, others) = rest.split_at(load_after(*load, *surplus).min(rest.len()));
        show_board(rt, columns)?;
        rest = others;
    }
    print!(rt; " then{}", Listed(&rest[..rest.len().min(1)]))
}

impl Case<'_, '_> {
    // The columns, asked for with so much of a fresh buffer and of a lent list.
    fn show_asked(&self, rt: &impl Print, list: &mut [u32], lent: Lent) -> io::Result<()> {
        let mut plan = [UNTOUCHED; ROOM];
        let bytes = first(&mut plan, lent.bytes);
        let answer = Answer(columns::columns(self.job, bytes, first(list, lent.places)));
        print!(rt; "  {lent} columns")?;
        show_boards(rt, self.ring, list)?;
        print!(rt; " {answer}")?;
        self.show_left(rt, &plan)
    }

    // The same with a fresh list.
    fn show_call(&self, rt: &impl Print, lent: Lent) -> io::Result<()> {
        self.show_asked(rt, &mut [UNTOLD; PLACES], lent)
    }

    // The columns with bytes and a place to spare, with all exact, with a place short, with a byte and a place short, and with no place.
    pub(crate) fn show_columns(&self, rt: &impl Print) -> io::Result<()> {
        let exact = Lent {
            bytes: self.length(),
            places: self.ring.columns(),
        };
        let places = exact.places.saturating_add(1);
        self.show_call(rt, Lent { places, ..ALL })?;
        self.show_call(rt, exact)?;
        self.show_call(rt, exact.fewer())?;
        self.show_call(rt, exact.fewer().less())?;
        self.show_call(rt, Lent { places: 0, ..exact })
    }
}

// A ring without its job's last byte, which the planner refuses: its columns with no place, and with places to spare.
pub(crate) fn show_cut<'r>(rt: &impl Print, ring: &'r Ring<'r>) -> io::Result<()> {
    let mut bytes = [0; JOB];
    let less = ring.write(&mut bytes).saturating_sub(1);
    let case = Case::new(ring, &bytes[..less.min(JOB)]);
    println!(rt; "{} cut {}", ring.label, case.answer)?;
    case.show_call(rt, Lent { places: 0, ..ALL })?;
    case.show_call(rt, ALL)
}

// How many places of a list have the number after the one before them.
fn in_turn(list: &[u32]) -> usize {
    list.iter()
        .zip(list.iter().skip(1))
        .filter(|(place, next)| **next == place.wrapping_add(1))
        .count()
}

// The columns of the ring of many with a place short, then with a place to spare in the same list. Then all are in turn but the first and
// the one after the wrap.
fn show_many_columns(rt: &impl Print, case: &Case) -> io::Result<()> {
    let mut list = [UNTOLD; MANY];
    let exact = Lent {
        places: MANY - 1,
        ..ALL
    };
    println!(rt; "{} {}", case.ring.label, case.answer)?;
    case.show_asked(rt, &mut list, exact.fewer())?;
    case.show_asked(
        rt,
        &mut list,
        Lent {
            places: MANY,
            ..ALL
        },
    )?;
    println!(rt; "  in turn {}", in_turn(&list))
}

// More columns than 16 bits count, on boards with the greatest loads and costs. Three of the last board's go to board 0, so that the columns
// wrap inside it.
pub(crate) fn show_many(rt: &impl Print) -> io::Result<()> {
    let mut loads = [4095; 17];
    let mut surpluses = [0; 17];
    let mut job = [0; 109];
    loads[0] = 4092;
    surpluses[0] = -3;
    surpluses[16] = 3;
    let ring = Ring {
        label: "many",
        kind: Kind::MixedOneWay,
        loads: &loads,
        surpluses: &surpluses,
        costs: &[8000; 17],
        ticks: &[],
    };
    ring.write(&mut job);
    show_many_columns(rt, &Case::new(&ring, &job))
}
