// The entry point of the run of a plan's steps on a stack of updates.
#![tactic(auto)]

ghost use Rattle.std.specs.Prelude.{◌≡◌, ℕ};
ghost use Rattle.papers.specs.Refusals.{first, EndsAs};
ghost use Rattle.papers.specs.Analysis.{some_short};
ghost use Rattle.papers.specs.Run.{run_fixed, run_early, ran};
ghost use Rattle.refusals.specs.Answers.{verdict_from};
ghost use Rattle.run_updates.specs.Kept.{run_of};

use papers::Answer;
use refusals::{Refusal, Refused, refuse};
use run_front::Factor;

// Test 7: whether columns, pops or stack list have fewer than n places.
fn too_short(n: u64, columns: &[u32], pops: &[u32], stack: &[u32]) -> bool
    ensures { result ≡ some_short (run_fixed n columns.now pops.now stack.now) }
{
    (columns.len() as u64) < n || (pops.len() as u64) < n || (stack.len() as u64) < n
}

// Tests 1, 4, 5, 6 and 7, which come before the first step, whatever room the run is given.
fn early_fault(
    n: u64,
    starts: &[u64],
    rows: &[u32],
    columns: &[u32],
    pops: &[u32],
    stack: &[u32],
) -> Result<(), Refused>
    ensures { (room : ℕ) → verdict_from result ≡ first run_early (run_of n starts.now rows.now columns.now pops.now room
        stack.now) }
{
    if papers::MAX_COLUMNS < n {
        return refuse(Refusal::TooManyColumns, 0, 0);
    }
    job_starts::starts_fault(n, starts, rows)?;
    job_rows::rows_fault(n, starts, rows)?;
    if too_short(n, columns, pops, stack) {
        return refuse(Refusal::SliceTooShort, 0, 0);
    }
    Ok(())
}

// Runs n steps, each a column and its pops, on a factor's lists within a room. Tests 1, 4, 5, 6 and 7 before the first step; these leave
// the stack list as it was. From the steps on it answers 14, 21, 22, 23, 24 or done, and clears the stack list.
pub fn run(
    n: u64,
    starts: &[u64],
    rows: &[u32],
    columns: &[u32],
    pops: &[u32],
    room: u64,
    stack: &mut [u32],
) -> Answer
    ensures { EndsAs result stack.new
        (ran (record {
          n = n;
          starts = starts.now;
          rows = rows.now;
          columns = columns.now;
          pops = pops.now;
          room = room;
          stack = stack.old;
        })) }
{
    if let Err(refused) = early_fault(n, starts, rows, columns, pops, stack) {
        return Answer::from(refused);
    }
    let factor = Factor { n, starts, rows };
    let outcome = run_steps::steps(factor, columns, pops, room, stack);
    stack.fill(0);
    refusals::answer(outcome)
}
