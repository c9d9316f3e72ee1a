// The bytes of a plan: its head, and the records of its sends.
ghost use Rattle.std.specs.Prelude.{◌≡◌, ◌+◌, ◌*◌, ◌<◌, ◌≤◌, ◌++◌, length, take, drop};
ghost use Rattle.ring.specs.Bytes.{send_bytes, plan_head};
ghost use Rattle.hop.specs.Kinds.{number_of};
ghost use Rattle.planner.specs.Links.{direction_number, link_bytes};

use crate::Planned;
use hop::Shape;

// How many bytes stand before the records.
pub(crate) const HEAD: usize = 15;

// Which way a send goes.
#[derive(Clone, Copy)]
pub(crate) enum Direction {
    Forward,
    Back,
}

impl Direction {
    // Its number in a record.
    fn number(self) -> u8
        ensures { result ≡ direction_number self }
    {
        self as u8
    }
}

// The head at the front of a plan's buffer.
pub(crate) fn put_head(buf: &mut [u8], ring: Shape, planned: Planned)
    requires { 15 ≤ length buf.old }
    ensures { buf.new ≡ plan_head (number_of ring.kind) ring.n planned.finish planned.moves ++ drop 15 buf.old }
{
    let kind = ring.kind.number();
    let [f0, f1, f2, f3] = planned.finish.to_be_bytes();
    let [m0, m1, m2, m3] = planned.moves.to_be_bytes();
    let head = [
        b'P', b'L', b'N', 0, 1, kind, ring.n, f0, f1, f2, f3, m0, m1, m2, m3,
    ];
    buf[..HEAD].copy_from_slice(&head);
}

// One record at the front of a part. It holds the start's low 32 bits, which are all of it where the finish is within 32 bits. They are copied as one
// piece, which the next link's look at the record then finds whole.
fn put_record(part: &mut [u8], link: u8, direction: Direction, start: u64)
    requires { 6 ≤ length part.old }
    ensures { part.new ≡ send_bytes (record { link = link; direction = direction_number direction; start = start }) ++ drop 6 part.old }
{
    let [.., s0, s1, s2, s3] = start.to_be_bytes();
    part[..2].copy_from_slice(&[link, direction.number()]);
    part[2..6].copy_from_slice(&[s0, s1, s2, s3]);
}

// Record x of a link, in the link's part. Link, direction and start stay apart: a struct of them for each send is no plainer.
pub(crate) fn put_send(part: &mut [u8], link: u8, direction: Direction, x: usize, start: u64)
    requires { 6 * x + 6 ≤ length part.old }
    ensures { part.new ≡ (take (6 * x) part.old ++ send_bytes (record { link = link; direction = direction_number direction; start = start })) ++ drop (6 * x + 6) part.old }
{
    put_record(&mut part[6 * x..], link, direction, start);
}

// The records of `count` sends of a link, the first at tick `first` and each other `step` ticks after the one before, at the front of
// a part.
pub(crate) fn put_run(
    part: &mut [u8],
    link: u8,
    direction: Direction,
    count: u32,
    first: u64,
    step: u16,
)
    requires fits { 6 * count ≤ length part.old }
    requires first_in_time { 0 < count → first < 4294967296 }
    ensures { part.new ≡ link_bytes link (direction_number direction) (λ x. first + x * step) count ++ drop (6 * count) part.old }
{
    // by number, since a proof knows nothing of what the parts of `chunks_exact_mut` end as
    let n = count as usize;
    let mut start = first;
    for x in 0..n {
        put_send(part, link, direction, x, start);
        start += u64::from(step);
    }
}
