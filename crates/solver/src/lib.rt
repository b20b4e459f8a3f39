// The solver's call: takes the bytes of a key and of a plan, and answers one number.
#![tactic(auto)]

ghost use Rattle.std.specs.Prelude.{◌≡◌};
ghost use Rattle.papers.specs.Job.{job_of};
ghost use Rattle.papers.specs.Check.{checked};
ghost use Rattle.papers.specs.Text.{buffers};
ghost use Rattle.papers.specs.Call.{solver_answer, called};
ghost use Rattle.solver.specs.Within.{WithinSizes};

use papers::{Answer, JobHead};
use read_key::KeyFound;
use refusals::Refusal;

// Checks a plan's bytes for a job, in zeroed buffers of the program's sizes.
fn check_in_buffers(head: JobHead, starts: &[u64], rows: &[u32], plan: &[u8]) -> Answer
    ensures { result ≡ (checked (job_of head starts.now rows.now) plan.now buffers).answered }
{
    let mut parents = [0u32; program_sizes::COLUMNS];
    let mut order = [0u32; program_sizes::COLUMNS];
    let mut pops = [0u32; program_sizes::COLUMNS];
    let mut fstarts = [0u64; program_sizes::STARTS];
    let mut frows = [0u32; program_sizes::FACTOR_ROWS];
    let mut work = [0u64; program_sizes::WORK];
    checker::check_plan(
        head,
        starts,
        rows,
        plan,
        &mut parents,
        &mut order,
        &mut pops,
        &mut fstarts,
        &mut frows,
        &mut work,
    )
}

// Checks a plan's bytes for the job of a key that was read through and is within the sizes. Reads the key's lists again, into buffers of
// their own.
fn check_for_key(key: &[u8], found: KeyFound, plan: &[u8]) -> Answer
    requires { WithinSizes key.now found.head found.rows found.lists }
    ensures { result ≡ solver_answer (record { key = key.now; plan = plan.now }) }
{
    let n = found.head.n as usize;
    let mut starts = [0u64; program_sizes::STARTS];
    let mut rows = [0u32; program_sizes::PATTERN_ROWS];
    let _ = read_plan::read_lists(key, found.lists, found.head.n, &mut starts, &mut rows);
    check_in_buffers(
        found.head,
        &starts[..n + 1],
        &rows[..found.rows as usize],
        plan,
    )
}

// The one number is this many times the answer's number, plus its place.
const PLACES: u64 = 4294967296;

// Answers 27 if the key is not readable, 26 if its job is over the program's sizes, else the check of the plan for its job: the answer's
// number times 2^32, plus its place.
pub fn check(key: &[u8], plan: &[u8]) -> u64
    ensures { result ≡ called key.now plan.now }
{
    let Some(found) = read_key::read_key(key) else {
        return Refusal::KeyUnreadable as u64 * PLACES;
    };
    if (program_sizes::COLUMNS as u64) < found.head.n
        || (program_sizes::PATTERN_ROWS as u64) < found.rows
    {
        return Refusal::OverProgramSizes as u64 * PLACES;
    }
    let answer = check_for_key(key, found, plan);
    answer.number * PLACES + answer.place
}
