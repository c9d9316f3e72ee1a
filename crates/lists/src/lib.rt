// Calls that plan a job and fill a lent list beside the plan: their refusals, and their plans.
#![tactic(auto)]

ghost use Rattle.std.specs.Prelude.{◌≡◌, length};
ghost use Rattle.hop.specs.Read.{job_of};
ghost use Rattle.lists.specs.Listed.{list_answer, list_plan};

use hop::Refusal;
use planner::Planned;

// The plan of a job for a call that needs so many of the places of a list: the planner's answer, and after it this number where they are too few.
#[tactic(auto, using(crate::proofs::Listing::enough_answer, crate::proofs::Listing::enough_plan, crate::proofs::Listing::short_answer, crate::proofs::Listing::short_plan))]
pub fn plan_for(
    s: &[u8],
    buf: &mut [u8],
    needed: usize,
    places: usize,
    number: u8,
) -> Result<Planned, Refusal>
    ensures value { result ≡ list_answer number needed (job_of s.now) (length buf.old) places }
    ensures buf_after { buf.new ≡ list_plan number needed (job_of s.now) places buf.old }
{
    if needed <= places {
        return planner::plan(s, buf);
    }
    let _ = planner::weigh(s, buf.len())?;
    Err(Refusal::ShortList { number, board: 0 })
}
