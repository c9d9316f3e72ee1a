// What the program prints of a job, as bytes in a lent buffer.
#![tactic(auto)]

ghost use Rattle.std.specs.Prelude.{◌≡◌, length};
ghost use Rattle.hop.specs.Read.{job_of};
ghost use Rattle.planner.specs.Answer.{plan_memory};
ghost use Rattle.report.specs.Text.{over};
ghost use Rattle.report.specs.Report.{report_of, printed};

mod text;

use text::Text;

// The most bytes of an input that are read: one byte more than the longest job, so that a longer input is refused.
pub const INPUT_LIMIT: usize = 776;

// The bytes that are planned into: room for 10,920 sends.
pub const PLAN_ROOM: usize = 65535;

// The bytes of a text's buffer: the first line and 128 boards' lines have room in them.
pub const TEXT_ROOM: usize = 8192;

// Plans a job into `plan`, writes the text of the answer at the front of `text`, and answers its length.
pub fn report(s: &[u8], plan: &mut [u8], text: &mut [u8; TEXT_ROOM]) -> usize
    ensures plan_after { plan.new ≡ plan_memory (job_of s.now) plan.old }
    ensures value { result ≡ length (report_of (job_of s.now) (length plan.old)) }
    ensures text_after { text.new ≡ over (report_of (job_of s.now) (length plan.old)) text.old }
{
    let planned = planner::plan(s, plan);
    let mut out = Text {
        buffer: text,
        length: 0,
    };
    match (hop::read(s).answer, planned) {
        (Ok(shape), Ok(planned)) => {
            out.first(planned);
            out.boards(shape.n, &planner::traffic_of(s));
        }
        (Err(refusal), _) => out.refusal(refusal),
        (_, Err(refusal)) => out.refusal(refusal),
    }
    out.length
}

// Writes what the program prints of an input at the front of `text`, and answers its length. A longer input than the limit is cut to the
// limit, and what is past it plays no part.
pub fn printout(input: &[u8], text: &mut [u8; TEXT_ROOM]) -> usize
    ensures value { result ≡ length (printed input.now) }
    ensures text_after { text.new ≡ over (printed input.now) text.old }
{
    let mut plan = [0u8; PLAN_ROOM];
    let length = input.len().min(INPUT_LIMIT);
    report(&input[..length], &mut plan, text)
}
