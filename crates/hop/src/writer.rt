// The job writer: from a kind and three lists to a job's bytes in a lent buffer.
ghost use Rattle.std.specs.Prelude.{◌≡◌, ◌++◌, ◌≤◌, ◌<◌, length, drop};
ghost use Rattle.ring.specs.Lists.{each, each_ℤ};
ghost use Rattle.hop.specs.Kinds.{number_of};
ghost use Rattle.hop.specs.Read.{job_length};
ghost use Rattle.hop.specs.Write.{head_bytes, record_bytes, job_bytes, lists_of, written_of, buffer_of};

use crate::rules::{Boards, check, shape};
use crate::{Numbers, Refusal, Shape, job_length};

// A writer's three lists, as the caller of `write` lends them, which C does too: the place of its boards' numbers.
#[derive(Clone, Copy)]
struct Lists<'a> {
    loads: &'a [u16],
    surpluses: &'a [i16],
    costs: &'a [u16],
}

impl<'a> Boards for Lists<'a> {
    ghost has = { λ l i. (i < length l.loads.now) × (i < length l.surpluses.now) × (i < length l.costs.now) };

    ghost load = { λ l i. each l.loads.now i };

    ghost surplus = { λ l i. each_ℤ l.surpluses.now i };

    ghost cost = { λ l i. each l.costs.now i };

    fn numbers(&self, i: u8) -> Numbers {
        let k = usize::from(i);
        Numbers {
            load: self.loads[k],
            surplus: self.surpluses[k],
            cost: self.costs[k],
        }
    }
}

// Refusals 4 to 11 of a writer's lists, or the kind and n.
fn check_lists(kind: u8, lists: &Lists) -> Result<Shape, Refusal>
    ensures { result ≡ lists_of kind lists.now.loads.now lists.now.surpluses.now lists.now.costs.now }
{
    let n = lists.loads.len();
    let shaped = shape(kind, n)?;
    if lists.surpluses.len() != n {
        return Err(Refusal::WrongLength);
    }
    if lists.costs.len() != n {
        return Err(Refusal::WrongLength);
    }
    check(shaped, lists)
}

// The first seven bytes of a job.
fn put_head(buf: &mut [u8], ring: Shape)
    requires { 7 ≤ length buf.old }
    ensures { buf.new ≡ head_bytes (number_of ring.kind) ring.n ++ drop 7 buf.old }
{
    buf[..7].copy_from_slice(&[b'H', b'O', b'P', 0, 1, ring.kind.number(), ring.n]);
}

// A board's record, at the front of the part that begins at its place.
fn put_board(part: &mut [u8], board: Numbers)
    requires { 6 ≤ length part.old }
    ensures { part.new ≡ record_bytes board.load board.surplus board.cost ++ drop 6 part.old }
{
    part[..2].copy_from_slice(&board.load.to_be_bytes());
    part[2..4].copy_from_slice(&board.surplus.to_be_bytes());
    part[4..6].copy_from_slice(&board.cost.to_be_bytes());
}

// The bytes of a job, at the front of a buffer with room for them.
fn put(buf: &mut [u8], ring: Shape, lists: &Lists)
    requires room { job_length ring.n ≤ length buf.old }
    requires long { (ring.n ≤ length lists.now.loads.now) × (ring.n ≤ length lists.now.surpluses.now) × (ring.n ≤ length lists.now.costs.now) }
    ensures { buf.new ≡ job_bytes (number_of ring.kind) ring.n (each lists.now.loads.now) (each_ℤ lists.now.surpluses.now) (each lists.now.costs.now) ++ drop (job_length ring.n) buf.old }
{
    put_head(buf, ring);
    // by board, since a proof knows nothing of what the parts of `chunks_exact_mut` end as
    for i in 0..ring.n {
        put_board(&mut buf[job_length(i)..], lists.numbers(i));
    }
}

// The job of a kind and three lists, written at the front of a buffer; or its first refusal, with the buffer as it was.
pub fn write(
    kind: u8,
    loads: &[u16],
    surpluses: &[i16],
    costs: &[u16],
    buf: &mut [u8],
) -> Result<usize, Refusal>
    ensures value { result ≡ written_of kind loads.now surpluses.now costs.now (length buf.old) }
    ensures buf_after { buf.new ≡ buffer_of kind loads.now surpluses.now costs.now buf.old }
{
    let lists = Lists {
        loads,
        surpluses,
        costs,
    };
    let ring = check_lists(kind, &lists)?;
    let length = job_length(ring.n);
    if buf.len() < length {
        return Err(Refusal::NoRoom);
    }
    put(buf, ring, &lists);
    Ok(length)
}
