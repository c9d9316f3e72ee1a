// The edges of document 01, asked of the reader, of its check alone and of the writer: one line for each.
#![tactic(auto)]

use Sample::{Long, Two};
use hop::{Numbers, Refusal, Shape};
use std::io;

// The bytes of a sound job of 128 boards and seven zeros.
const LONG: usize = 782;

// More bytes than any job has: the most that the writer is lent.
const ROOM: usize = 1900;

// What every byte of the writer's buffer is before it is lent.
const UNTOUCHED: u8 = 7;

// A board's load, surplus and cost, in a table's row.
macro_rules! board {
    ($load:expr, $surplus:expr, $cost:expr) => {
        Numbers {
            load: $load,
            surplus: $surplus,
            cost: $cost,
        }
    };
}

// Bytes for the reader.
#[derive(Clone, Copy)]
enum Sample {
    // A kind and a length, then places and what stands there: so many bytes of a sound job of 128 boards and seven zeros, with these changed.
    Long(u8, usize, &'static [(usize, u8)]),
    // A kind and the two boards.
    Two(u8, Numbers, Numbers),
}

// A kind and the lists of loads, surpluses and costs, for the writer. Kinds are numbers in this file, since 0 and 4, which name no kind, are asked of too.
#[derive(Clone, Copy)]
struct Ring(u8, &'static [u16], &'static [i16], &'static [u16]);

// Refusals 1 to 6 by themselves.
static SHAPES: [(&str, Sample); 22] = [
    ("bytes-0", Long(2, 0, &[])),
    ("bytes-6", Long(2, 6, &[])),
    ("bytes-7", Long(2, 7, &[])),
    ("mark-h", Long(2, 775, &[(0, b'h')])),
    ("mark-o", Long(2, 775, &[(1, b'o')])),
    ("mark-p", Long(2, 775, &[(2, b'p')])),
    ("version-0", Long(2, 775, &[(4, 0)])),
    ("version-2", Long(2, 775, &[(4, 2)])),
    ("version-257", Long(2, 775, &[(3, 1)])),
    ("kind-0", Long(2, 775, &[(5, 0)])),
    ("kind-1", Long(1, 775, &[])),
    ("kind-3", Long(3, 775, &[])),
    ("kind-4", Long(2, 775, &[(5, 4)])),
    ("n-0", Long(2, 7, &[(6, 0)])),
    ("n-1", Long(2, 13, &[(6, 1)])),
    ("n-2", Long(2, 19, &[(6, 2)])),
    ("n-2-less", Long(2, 18, &[(6, 2)])),
    ("n-2-more", Long(2, 20, &[(6, 2)])),
    ("n-128", Long(2, 775, &[])),
    ("n-128-less", Long(2, 774, &[])),
    ("n-128-more", Long(2, 776, &[])),
    ("n-129", Long(2, 781, &[(6, 129)])),
];

// Loads, loads after and costs at their limits.
static LIMITS: [(&str, Sample); 21] = [
    ("load-0", Two(2, board!(0, 0, 1), board!(2, 0, 1))),
    ("load-1", Two(2, board!(1, 0, 1), board!(2, 0, 1))),
    ("load-4095", Two(2, board!(4095, 0, 1), board!(2, 0, 1))),
    ("load-4096", Two(2, board!(4096, 0, 1), board!(2, 0, 1))),
    ("after-0", Two(2, board!(1, 1, 1), board!(1, -1, 1))),
    ("after-1", Two(2, board!(2, 1, 1), board!(1, -1, 1))),
    ("after-4095", Two(2, board!(4094, -1, 1), board!(2, 1, 1))),
    ("after-4096", Two(2, board!(4095, -1, 1), board!(2, 1, 1))),
    (
        "surplus-least",
        Two(2, board!(2, -32768, 1), board!(2, 0, 1)),
    ),
    ("surplus-most", Two(2, board!(2, 0, 1), board!(2, 32767, 1))),
    ("cost-0", Two(2, board!(2, 0, 0), board!(2, 0, 1))),
    ("cost-1", Two(2, board!(2, 0, 1), board!(2, 0, 1))),
    ("cost-8000", Two(2, board!(2, 0, 8000), board!(2, 0, 1))),
    ("cost-8001", Two(2, board!(2, 0, 8001), board!(2, 0, 1))),
    ("cost-last", Long(2, 775, &[(774, 0)])),
    ("costs-1", Two(1, board!(2, 0, 1), board!(2, 0, 2))),
    ("costs-2", Two(2, board!(2, 0, 1), board!(2, 0, 2))),
    ("costs-3", Two(3, board!(2, 0, 1), board!(2, 0, 2))),
    ("costs-first", Long(1, 775, &[(66, 3), (42, 2)])),
    ("sum-1", Two(2, board!(2, 1, 1), board!(2, 0, 1))),
    ("sum-less-1", Two(2, board!(2, -1, 1), board!(2, 0, 1))),
];

// Where two refusals compete.
static ORDER: [(&str, Sample); 12] = [
    ("1-or-2", Long(2, 6, &[(0, b'h')])),
    ("2-or-3", Long(2, 775, &[(2, b'p'), (4, 2)])),
    ("3-or-4", Long(2, 775, &[(4, 2), (5, 0)])),
    ("4-or-5", Long(2, 775, &[(5, 0), (6, 0)])),
    ("5-or-6", Long(2, 775, &[(6, 129)])),
    ("6-or-7", Long(2, 774, &[(8, 0)])),
    ("7-or-8", Two(2, board!(0, 1, 1), board!(2, -1, 1))),
    ("8-or-9", Two(2, board!(1, 1, 0), board!(1, -1, 1))),
    ("9-or-later-7", Two(2, board!(2, 0, 0), board!(0, 0, 1))),
    ("9-or-10", Two(1, board!(2, 0, 1), board!(2, 0, 0))),
    ("7-or-11", Two(3, board!(2, 1, 1), board!(0, 0, 2))),
    ("10-or-11", Two(1, board!(2, 1, 1), board!(2, 0, 2))),
];

// So many bytes of a job of two boards, and one of its boards: whole, cut and past the end.
static SINGLE: [(&str, usize, u8); 6] = [
    ("numbers-first", 19, 0),
    ("numbers-last", 19, 1),
    ("numbers-cut", 18, 1),
    ("numbers-past", 19, 2),
    ("numbers-255", 19, 255),
    ("numbers-none", 0, 0),
];

// The writer's refusals by its lists, and by the bytes that it is lent.
static LISTS: [(&str, Ring, usize); 17] = [
    ("w-lists-0", Ring(2, &[], &[], &[]), ROOM),
    ("w-lists-1", Ring(2, &[2], &[0], &[1]), ROOM),
    ("w-lists-2", Ring(2, &[2; 2], &[0; 2], &[1; 2]), ROOM),
    (
        "w-lists-128",
        Ring(2, &[2; 128], &[0; 128], &[1; 128]),
        ROOM,
    ),
    (
        "w-lists-129",
        Ring(2, &[2; 129], &[0; 129], &[1; 129]),
        ROOM,
    ),
    (
        "w-lists-300",
        Ring(2, &[2; 300], &[0; 300], &[1; 300]),
        ROOM,
    ),
    ("w-surpluses-1", Ring(2, &[2; 2], &[0], &[1; 2]), ROOM),
    (
        "w-surpluses-300",
        Ring(2, &[2; 2], &[0; 300], &[1; 2]),
        ROOM,
    ),
    ("w-costs-3", Ring(2, &[2; 2], &[0; 2], &[1; 3]), ROOM),
    ("w-4-or-5", Ring(0, &[2], &[0], &[1]), ROOM),
    ("w-5-or-6", Ring(2, &[2; 300], &[0; 2], &[1; 2]), ROOM),
    ("w-6-or-7", Ring(2, &[0; 2], &[0], &[1; 2]), ROOM),
    ("w-room-20", Ring(2, &[2, 2], &[0, 0], &[1, 1]), 20),
    ("w-room-19", Ring(2, &[2, 2], &[0, 0], &[1, 1]), 19),
    ("w-room-18", Ring(2, &[2, 2], &[0, 0], &[1, 1]), 18),
    ("w-room-0", Ring(2, &[2, 2], &[0, 0], &[1, 1]), 0),
    ("w-11-or-13", Ring(2, &[2, 2], &[1, 0], &[1, 1]), 0),
];

// The writer's refusals by its boards, with 20 bytes lent.
static BOARDS: [(&str, Ring, usize); 12] = [
    ("w-kind-0", Ring(0, &[2, 2], &[0, 0], &[1, 1]), 20),
    ("w-kind-4", Ring(4, &[2, 2], &[0, 0], &[1, 1]), 20),
    ("w-load-0", Ring(2, &[0, 2], &[0, 0], &[1, 1]), 20),
    ("w-load-4096", Ring(2, &[2, 4096], &[0, 0], &[1, 1]), 20),
    ("w-after-0", Ring(2, &[1, 1], &[1, -1], &[1, 1]), 20),
    (
        "w-surplus-least",
        Ring(2, &[2, 2], &[0, -32768], &[1, 1]),
        20,
    ),
    ("w-surplus-most", Ring(2, &[2, 2], &[32767, 0], &[1, 1]), 20),
    ("w-cost-0", Ring(2, &[2, 2], &[0, 0], &[0, 1]), 20),
    ("w-cost-8001", Ring(2, &[2, 2], &[0, 0], &[1, 8001]), 20),
    ("w-costs", Ring(3, &[2, 2], &[0, 0], &[1, 2]), 20),
    ("w-sum-1", Ring(2, &[2, 2], &[1, 0], &[1, 1]), 20),
    (
        "w-most",
        Ring(3, &[4095, 1], &[4094, -4094], &[8000, 8000]),
        20,
    ),
];

// LABEL NUMBER BOARD.
fn show_refusal(rt: &impl Print, label: &str, refusal: Refusal) -> io::Result<()> {
    print!(rt; "{label} {} {}", refusal.number(), refusal.board())
}

// A refusal, or LABEL ring KIND N.
fn show(rt: &impl Print, label: &str, answer: Result<Shape, Refusal>) -> io::Result<()> {
    match answer {
        Ok(ring) => print!(rt; "{label} ring {} {}", ring.kind.number(), ring.n)?,
        Err(refusal) => show_refusal(rt, label, refusal)?,
    }
    println!(rt)
}

// A refusal or LABEL bytes LENGTH, and kept COUNT.
fn show_written(
    rt: &impl Print,
    label: &str,
    answer: Result<usize, Refusal>,
    kept: usize,
) -> io::Result<()> {
    match answer {
        Ok(length) => print!(rt; "{label} bytes {length}")?,
        Err(refusal) => show_refusal(rt, label, refusal)?,
    }
    println!(rt; " kept {kept}")
}

// A board's bytes in a job.
fn bytes_of(board: Numbers) -> [u8; 6] {
    let mut bytes = [0; 6];
    bytes[..2].copy_from_slice(&board.load.to_be_bytes());
    bytes[2..4].copy_from_slice(&board.surplus.to_be_bytes());
    bytes[4..].copy_from_slice(&board.cost.to_be_bytes());
    bytes
}

// A job of two boards.
fn two(kind: u8, first: Numbers, second: Numbers) -> [u8; 19] {
    let mut bytes = [0; 19];
    bytes[..7].copy_from_slice(&[b'H', b'O', b'P', 0, 1, kind, 2]);
    bytes[7..13].copy_from_slice(&bytes_of(first));
    bytes[13..].copy_from_slice(&bytes_of(second));
    bytes
}

// What the reader says of bytes, and a line more where the check alone says something else.
fn says(rt: &impl Print, label: &str, bytes: &[u8]) -> io::Result<()> {
    let job = hop::read(bytes);
    show(rt, label, job.answer)?;
    if job.answer != hop::checked(bytes) {
        println!(rt; "checked otherwise")?;
    }
    Ok(())
}

// A sound job of 128 boards and seven zeros, with these bytes changed.
fn long(kind: u8, changes: &[(usize, u8)]) -> [u8; LONG] {
    let mut bytes = [0; LONG];
    let _ = hop::write(kind, &[2; 128], &[0; 128], &[1; 128], &mut bytes);
    for &(at, value) in changes {
        if let Some(byte) = bytes.get_mut(at) {
            *byte = value;
        }
    }
    bytes
}

// What the reader says of a sample.
fn reads(rt: &impl Print, label: &str, sample: Sample) -> io::Result<()> {
    match sample {
        Long(kind, length, changes) => {
            let bytes = long(kind, changes);
            says(rt, label, &bytes[..length.min(LONG)])
        }
        Two(kind, first, second) => says(rt, label, &two(kind, first, second)),
    }
}

fn reads_all(rt: &impl Print) -> io::Result<()> {
    for (label, sample) in SHAPES.iter().chain(&LIMITS).chain(&ORDER) {
        reads(rt, label, *sample)?;
    }
    Ok(())
}

// LABEL LOAD SURPLUS COST, each time of a board in so many bytes of one job.
fn numbers(rt: &impl Print) -> io::Result<()> {
    let bytes = two(2, board!(258, -3, 772), board!(1, 0, 3));
    for &(label, length, i) in &SINGLE {
        let board = hop::numbers_of(&bytes[..length.min(19)], i);
        println!(rt; "{label} {} {} {}", board.load, board.surplus, board.cost)?;
    }
    Ok(())
}

// What the writer says of a ring with so many bytes lent, and how many of them are as they were.
fn writes(rt: &impl Print, label: &str, ring: Ring, room: usize) -> io::Result<()> {
    let Ring(kind, loads, surpluses, costs) = ring;
    let mut bytes = [UNTOUCHED; ROOM];
    let lent = &mut bytes[..room.min(ROOM)];
    let answer = hop::write(kind, loads, surpluses, costs, lent);
    let kept = lent.iter().filter(|byte| **byte == UNTOUCHED).count();
    show_written(rt, label, answer, kept)
}

fn writes_all(rt: &impl Print) -> io::Result<()> {
    for (label, ring, room) in LISTS.iter().chain(&BOARDS) {
        writes(rt, label, *ring, *room)?;
    }
    Ok(())
}

fn main(rt: HostRuntime) -> io::Result<()> {
    reads_all(&rt)?;
    numbers(&rt)?;
    writes_all(&rt)
}
