// What the program prints, asked of the function that it prints by: inputs about the limit of 776 bytes, each refusal that the program can
// give, and plans about the room of 10,920 sends. It can't give 12, which no ring within the limits is given (never_twelve, in the planner's
// proofs), nor 14, since it asks for no loads.
#![tactic(auto)]

ghost use Rattle.std.specs.Prelude.{◌≤◌, ◌<◌, length};

use hop::Kind;
use std::io;

// What is shown of a text: all of a short one, the first line of a longer one.
fn shown(text: &[u8]) -> &[u8]
    ensures { length result.now ≤ length text.now }
{
    match text.iter().position(|byte| *byte == b'\n') {
        Some(end) if text.len() > 200 => &text[..end + 1],
        _ => text,
    }
}

// LABEL: LENGTH bytes of text, and what is shown of them.
fn show(rt: &impl Print, label: &str, text: &[u8]) -> io::Result<()> {
    println!(rt; "{label}: {} bytes of text", text.len())?;
    rt.write_all(shown(text))
}

// The text of an input.
fn prints(rt: &impl Print, label: &str, input: &[u8]) -> io::Result<()> {
    let mut text = [0u8; report::TEXT_ROOM];
    let length = report::printout(input, &mut text);
    show(rt, label, &text[..length])
}

// The text of so many bytes: a sound job of 128 boards, zeros after it, and one byte changed.
fn changed(rt: &impl Print, label: &str, length: usize, at: usize, value: u8) -> io::Result<()>
    requires { (length ≤ 5000) × (at < 5000) }
{
    let loads = [2u16; 128];
    let mut surpluses = [0i16; 128];
    surpluses[0] = 1;
    surpluses[127] = -1;
    let costs = [1u16; 128];
    let mut bytes = [0u8; 5000];
    let _ = hop::write(
        Kind::OneWay.number(),
        &loads,
        &surpluses,
        &costs,
        &mut bytes,
    );
    bytes[at] = value;
    prints(rt, label, &bytes[..length])
}

// The text of a job of four boards, of kind 1 and cost 1.
fn four(rt: &impl Print, label: &str, loads: &[u16], surpluses: &[i16]) -> io::Result<()> {
    let mut bytes = [0u8; 31];
    let _ = hop::write(
        Kind::OneWay.number(),
        loads,
        surpluses,
        &[1, 1, 1, 1],
        &mut bytes,
    );
    prints(rt, label, &bytes)
}

// Inputs by their length.
fn inputs(rt: &impl Print) -> io::Result<()> {
    changed(rt, "input of 0", 0, 6, 128)?;
    changed(rt, "input of 775", 775, 6, 128)?;
    changed(rt, "input of 776", 776, 6, 128)?;
    changed(rt, "input of 777", 777, 6, 128)?;
    changed(rt, "input of 5000", 5000, 6, 128)?;
    changed(rt, "input of 5000, mark", 5000, 0, b'h')
}

// Refusals 1 to 6.
fn headers(rt: &impl Print) -> io::Result<()> {
    changed(rt, "6 bytes", 6, 6, 128)?;
    changed(rt, "mark", 775, 2, b'p')?;
    changed(rt, "version 2", 775, 4, 2)?;
    changed(rt, "kind 4", 775, 5, 4)?;
    changed(rt, "129 boards", 775, 6, 129)?;
    changed(rt, "774 bytes", 774, 6, 128)
}

// Refusals 7 to 11: on boards 5, 9, 127 and 11, and on no board.
fn boards(rt: &impl Print) -> io::Result<()> {
    changed(rt, "load 0", 775, 38, 0)?;
    changed(rt, "load after 0", 775, 64, 2)?;
    changed(rt, "cost 0", 775, 774, 0)?;
    changed(rt, "unlike cost", 775, 78, 2)?;
    changed(rt, "sum 1", 775, 16, 1)
}

fn main(rt: HostRuntime) -> io::Result<()> {
    inputs(&rt)?;
    headers(&rt)?;
    boards(&rt)?;
    four(&rt, "10920 sends", &[3641, 1, 1, 1], &[3640, 0, 0, -3640])?;
    four(&rt, "10921 sends", &[3642, 1, 1, 1], &[3641, -1, 0, -3640])
}
