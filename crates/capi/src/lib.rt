// For callers in other languages: the reader's check, the job writer, the planner, the loads query and the columns call, on numbers and slices.
// include/fallowroe.h declares the five functions to C.
#![tactic(auto)]

ghost use Rattle.std.specs.Prelude.{◌≡◌, List, [], ◌∷◌, ℕ, length};
ghost use Rattle.hop.specs.Answers.{number_by, board_by, refusal, of_answer, of_check, of_written};
ghost use Rattle.hop.specs.Kinds.{number_of};
ghost use Rattle.hop.specs.Read.{check_of, job_of};
ghost use Rattle.hop.specs.Write.{written_of, buffer_of};
ghost use Rattle.planner.specs.Answer.{of_planned, plan_answer, plan_memory};
ghost use Rattle.loads.specs.Query.{query_answer, query_plan, query_loads};
ghost use Rattle.columns.specs.Call.{columns_answer, columns_plan, columns_list};
ghost use Rattle.capi.specs.Convention.{code_of, three_of, values_of};

use hop::{Refusal, Shape};
use planner::Planned;

// What a success tells in the three lent values.
trait Values {
    ghost values: { Self → List ℕ };

    // Zeros stand where it tells fewer.
    fn values(self) -> [u64; 3]
        ensures { result ≡ three_of (values self) };
}

// The kind and n.
impl Values for Shape {
    ghost values = { λ shape. number_of shape.kind ∷ shape.n ∷ [] };

    fn values(self) -> [u64; 3] {
        [u64::from(self.kind.number()), u64::from(self.n), 0]
    }
}

// The length written.
impl Values for usize {
    ghost values = { λ length. length ∷ [] };

    fn values(self) -> [u64; 3] {
        [self as u64, 0, 0]
    }
}

// Finish, moves and tight link.
impl Values for Planned {
    ghost values = { λ planned. planned.finish ∷ planned.moves ∷ planned.tight ∷ [] };

    fn values(self) -> [u64; 3] {
        [
            u64::from(self.finish),
            u64::from(self.moves),
            u64::from(self.tight),
        ]
    }
}

// The code of a refusal.
fn code(refused: Refusal) -> u64
    ensures { result ≡ code_of (refusal (number_by refused) (board_by refused)) }
{
    u64::from(refused.number()) + 256 * u64::from(refused.board())
}

// The code of an answer, with a success's values in their lent places; a refusal leaves those.
fn tell<T: Values>(answer: Result<T, Refusal>, values: &mut [u64; 3]) -> u64
    ensures value { result ≡ code_of (of_answer T.values answer) }
    ensures values_after { values.new ≡ values_of (of_answer T.values answer) values.old }
{
    match answer {
        Ok(success) => {
            *values = success.values();
            0
        }
        Err(refused) => code(refused),
    }
}

// The reader's check of any bytes: kind and n.
#[unsafe(no_mangle)]
pub extern "C" fn fallowroe_check(job: &[u8], values: &mut [u64; 3]) -> u64
    ensures value { result ≡ code_of (of_check (check_of job.now)) }
    ensures values_after { values.new ≡ values_of (of_check (check_of job.now)) values.old }
{
    tell(hop::checked(job), values)
}

// The job of a kind and three lists, written at the front of a buffer: its length.
#[unsafe(no_mangle)]
pub extern "C" fn fallowroe_write(
    kind: u8,
    loads: &[u16],
    surpluses: &[i16],
    costs: &[u16],
    job: &mut [u8],
    values: &mut [u64; 3],
) -> u64
    ensures value { result ≡ code_of (of_written (written_of kind loads.now surpluses.now costs.now (length job.old))) }
    ensures job_after { job.new ≡ buffer_of kind loads.now surpluses.now costs.now job.old }
    ensures values_after { values.new ≡ values_of (of_written (written_of kind loads.now surpluses.now costs.now (length job.old))) values.old }
{
    tell(hop::write(kind, loads, surpluses, costs, job), values)
}

// The plan of a job, at the front of a buffer: finish, moves and tight link.
#[unsafe(no_mangle)]
pub extern "C" fn fallowroe_plan(job: &[u8], plan: &mut [u8], values: &mut [u64; 3]) -> u64
    ensures value { result ≡ code_of (of_planned (plan_answer (job_of job.now) (length plan.old))) }
    ensures plan_after { plan.new ≡ plan_memory (job_of job.now) plan.old }
    ensures values_after { values.new ≡ values_of (of_planned (plan_answer (job_of job.now) (length plan.old))) values.old }
{
    tell(planner::plan(job, plan), values)
}

// The plan as above, and the load of each board at a tick in a list's first places.
#[unsafe(no_mangle)]
pub extern "C" fn fallowroe_loads(
    job: &[u8],
    tick: u32,
    plan: &mut [u8],
    list: &mut [u32],
    values: &mut [u64; 3],
) -> u64
    ensures value { result ≡ code_of (of_planned (query_answer (job_of job.now) (length plan.old) (length list.old))) }
    ensures plan_after { plan.new ≡ query_plan (job_of job.now) (length list.old) plan.old }
    ensures list_after { list.new ≡ query_loads (job_of job.now) tick (length plan.old) list.old }
    ensures values_after { values.new ≡ values_of (of_planned (query_answer (job_of job.now) (length plan.old) (length list.old))) values.old }
{
    tell(loads::loads(job, tick, plan, list), values)
}

// The plan as above, and the columns that each board then has, board 0's first, in a list's first places.
#[unsafe(no_mangle)]
pub extern "C" fn fallowroe_columns(
    job: &[u8],
    plan: &mut [u8],
    list: &mut [u32],
    values: &mut [u64; 3],
) -> u64
    ensures value { result ≡ code_of (of_planned (columns_answer (job_of job.now) (length plan.old) (length list.old))) }
    ensures plan_after { plan.new ≡ columns_plan (job_of job.now) (length list.old) plan.old }
    ensures list_after { list.new ≡ columns_list (job_of job.now) (length plan.old) list.old }
    ensures values_after { values.new ≡ values_of (of_planned (columns_answer (job_of job.now) (length plan.old) (length list.old))) values.old }
{
    tell(columns::columns(job, plan, list), values)
}
