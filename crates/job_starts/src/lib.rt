// Test 4: the starts of a job.
#![tactic(auto)]

ghost use Rattle.std.specs.Prelude.{◌≡◌, ◌≤◌};
ghost use Rattle.papers.specs.Bounds.{max_columns};
ghost use Rattle.refusals.specs.Answers.{verdict_from};
ghost use Rattle.job_laws.specs.Passed.{starts_test};

use refusals::{Refusal, Refused, refuse};

// Test 4, in this order: not n + 1 starts, or the first is not 0; the first column that would end before it begins; the last start is not
// the number of rows. Two slices and no `Lists`: before this test they are none. One pass over the columns: in the loop no start of the
// first `done` columns falls.
pub fn starts_fault(n: u64, starts: &[u64], rows: &[u32]) -> Result<(), Refused>
    requires { n ≤ max_columns }
    ensures { verdict_from result ≡ starts_test n starts.now rows.now }
{
    if starts.len() as u64 != n + 1 {
        return refuse(Refusal::StartsAtFault, 0, 0);
    }
    if starts[0] != 0 {
        return refuse(Refusal::StartsAtFault, 0, 0);
    }
    for done in 0..n as usize {
        if starts[done + 1] < starts[done] {
            return refuse(Refusal::StartsAtFault, done as u64 + 1, 0);
        }
    }
    if starts[n as usize] != rows.len() as u64 {
        return refuse(Refusal::StartsAtFault, n, 0);
    }
    Ok(())
}
