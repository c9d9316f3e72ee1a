// The job reader: from any bytes to a job.
ghost use Rattle.std.specs.Prelude.{◌≡◌, ◌+◌, ◌≤◌, length};
ghost use Rattle.hop.specs.Read.{job_length, load_in, surplus_in, cost_in, numbers_in, with_numbers_in, sizes_of, mark_of, head_of, check_of, bare, job_of};

use crate::bits::half;
use crate::rules::{Boards, check, shape};
use crate::{Job, MOST_BOARDS, Numbers, Refusal, Shape, job_length};

// A job's bytes, as the place of its boards' numbers.
#[derive(Clone, Copy)]
struct Bytes<'a> {
    s: &'a [u8],
}

impl<'a> Boards for Bytes<'a> {
    ghost has = { λ b i. job_length i + 6 ≤ length b.s.now };

    ghost load = { λ b i. load_in b.s.now i };

    ghost surplus = { λ b i. surplus_in b.s.now i };

    ghost cost = { λ b i. cost_in b.s.now i };

    fn numbers(&self, i: u8) -> Numbers {
        let at = job_length(i);
        Numbers {
            load: half(self.s, at),
            surplus: half(self.s, at + 2).cast_signed(),
            cost: half(self.s, at + 4),
        }
    }
}

// Refusals 4 to 6, or the kind and n.
fn sizes(s: &[u8]) -> Result<Shape, Refusal>
    requires { 7 ≤ length s.now }
    ensures { result ≡ sizes_of s.now }
{
    let ring = shape(s[5], usize::from(s[6]))?;
    if s.len() != job_length(ring.n) {
        return Err(Refusal::WrongLength);
    }
    Ok(ring)
}

// Refusals 2 and 3, then the rest.
fn mark(s: &[u8]) -> Result<Shape, Refusal>
    requires { 7 ≤ length s.now }
    ensures { result ≡ mark_of s.now }
{
    if !s.starts_with(b"HOP") {
        return Err(Refusal::NoJob);
    }
    if half(s, 3) != 1 {
        return Err(Refusal::NoVersion);
    }
    sizes(s)
}

// Refusals 1 to 6, or the kind and n.
fn head(s: &[u8]) -> Result<Shape, Refusal>
    ensures { result ≡ head_of s.now }
{
    if s.len() < 7 {
        return Err(Refusal::TooShort);
    }
    mark(s)
}

// The numbers of board i as the bytes have them; zeros where they end before that board's do, as `numbers_in` has it.
pub fn numbers_of(s: &[u8], i: u8) -> Numbers
    ensures { result ≡ numbers_in s.now i }
{
    if s.len() < job_length(i) + 6 {
        return Numbers {
            load: 0,
            surplus: 0,
            cost: 0,
        };
    }
    Bytes { s }.numbers(i)
}

// The reader's answer to any bytes, with no job made: the kind and n, or the first refusal of 1 to 11.
pub fn checked(s: &[u8]) -> Result<Shape, Refusal>
    ensures { result ≡ check_of s.now }
{
    check(head(s)?, &Bytes { s })
}

// Puts the numbers of n boards, as `numbers_of` has them, into the first n places of a job's arrays; its answer and its other places stay. From a ring's
// answer with zeros beside it this makes the job that is read, so nothing is cleared twice.
pub fn numbers_into(s: &[u8], n: u8, job: &mut Job)
    ensures { job.new ≡ with_numbers_in s.now n job.old }
{
    let held = n.min(MOST_BOARDS as u8);
    // by board, since document 01 asks for three arrays side by side
    for i in 0..held {
        let k = usize::from(i);
        let board = numbers_of(s, i);
        job.loads[k] = board.load;
        job.surpluses[k] = board.surplus;
        job.costs[k] = board.cost;
    }
}

// Reads any bytes into a job whose arrays hold zeros.
fn read_cleared(s: &[u8], job: &mut Job)
    requires { job.old ≡ bare job.old.answer }
    ensures { job.new ≡ job_of s.now }
{
    job.answer = checked(s);
    if let Ok(ring) = job.answer {
        numbers_into(s, ring.n, job);
    }
}

// Reads any bytes into a job that is lent: what they say, or their first refusal of 1 to 11 with zeros beside it, whatever it held.
pub fn read_into(s: &[u8], job: &mut Job)
    ensures { job.new ≡ job_of s.now }
{
    job.loads = [0; MOST_BOARDS];
    job.surpluses = [0; MOST_BOARDS];
    job.costs = [0; MOST_BOARDS];
    read_cleared(s, job);
}

// The job of any bytes, or its first refusal of 1 to 11.
pub fn read(s: &[u8]) -> Job
    ensures { result ≡ job_of s.now }
{
    let mut job = Job::UNREAD;
    read_cleared(s, &mut job);
    job
}
