// The columns call: the plan of a job in a lent buffer, and where its columns are after the plan in a lent list.
#![tactic(auto)]

ghost use Rattle.std.specs.Prelude.{◌≡◌, ◌++◌, ◌+◌, ◌<◌, ◌≤◌, length, drop};
ghost use Rattle.ring.specs.Lists.{up_to};
ghost use Rattle.ring.specs.Columns.{stretch};
ghost use Rattle.hop.specs.Read.{job_of};
ghost use Rattle.columns.specs.Call.{columns_answer, columns_plan, columns_list};

use hop::Refusal;
use planner::Planned;

// Rising columns from the first on, in each place of a part of a list.
#[tactic(auto, unfolding(ring::specs::Lists::joined))]
fn rise(first: u32, part: &mut [u32])
    requires { first + length part.old < 4294967296 }
    ensures { part.new ≡ up_to (λ x. first + x) (length part.old) }
{
    // By place, not beside `first..`, since a proof knows nothing of what the items of a `zip` of `iter_mut` end as.
    for (x, column) in part.iter_mut().enumerate() {
        *column = first + x as u32;
    }
}

// All columns from the first on, wrapping after the last, at the front of a list: those up to the last, and then those from 0 on.
fn lay(first: u32, total: u32, list: &mut [u32])
    requires { (first < total) × (total ≤ length list.old) }
    ensures { list.new ≡ stretch total first total ++ drop total list.old }
{
    let wrap = (total - first) as usize;
    let (up, again) = list.split_at_mut(wrap);
    rise(first, up);
    rise(0, &mut again[..first as usize]);
}

// The plan of a job, left in the buffer, and the numbers of the columns that the boards then have, board 0's first, left in the list's first places.
#[tactic(auto, using(crate::proofs::Turned::columns_run))]
pub fn columns(s: &[u8], buf: &mut [u8], list: &mut [u32]) -> Result<Planned, Refusal>
    ensures value { result ≡ columns_answer (job_of s.now) (length buf.old) (length list.old) }
    ensures buf_after { buf.new ≡ columns_plan (job_of s.now) (length list.old) buf.old }
    ensures list_after { list.new ≡ columns_list (job_of s.now) (length buf.old) list.old }
{
    let turn = planner::turn_of(s);
    let total = turn.columns;
    let planned = lists::plan_for(s, buf, total as usize, list.len(), 16)?;
    lay(turn.first, total, list);
    Ok(planned)
}
