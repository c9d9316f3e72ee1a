// The program: a job on standard input, the text of its plan on standard output.
#![tactic(auto)]

ghost use Rattle.std.specs.Prelude.{◌≤◌, length, IfOk};

use std::io;
use std::io::Read;

// Reads until the buffer is full or the input ends, and answers how many bytes stand at its front. std reads up to an input's end only into a
// `Vec`; the program keeps to fixed memory.
fn read_full(from: &mut impl Read, buf: &mut [u8]) -> io::Result<usize>
    ensures { IfOk result (λ n. n ≤ length buf.new) }
{
    let mut done = 0;
    while done < buf.len() {
        match from.read(&mut buf[done..])? {
            0 => break,
            n => done += n,
        }
    }
    Ok(done)
}

fn main(rt: HostRuntime) -> io::Result<()> {
    let mut input = [0u8; report::INPUT_LIMIT];
    let mut text = [0u8; report::TEXT_ROOM];
    let got = read_full(&mut rt.stdin(), &mut input)?;
    let length = report::printout(&input[..got], &mut text);
    rt.write_all(&text[..length])
}
