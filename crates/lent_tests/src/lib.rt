// Tests whether the slices lent to an analysis or a check are long enough, and their job: 1 to 7.
#![tactic(auto)]

ghost use Rattle.std.specs.Prelude.{◌≡◌, ◌≤◌};
ghost use Rattle.papers.specs.Bounds.{max_columns, work_length_for};
ghost use Rattle.papers.specs.Refusals.{first};
ghost use Rattle.papers.specs.Analysis.{fixed_for, some_short, early_refusals};
ghost use Rattle.refusals.specs.Answers.{verdict_from};
ghost use Rattle.job.specs.Given.{job_given};

use job::Job;
use refusals::{Refusal, Refused, refuse};

// How many numbers work has at least, for n columns.
fn work_length(n: usize) -> usize
    requires { n ≤ max_columns }
    ensures { result ≡ work_length_for n }
{
    8 * n + 8
}

// Test 7: whether a slice is below its fixed length for n columns. The arguments are the lengths of parents, order, pops, factor starts and
// work. A chain of ifs, not of `||`: so each test that holds is a way out with a law of its own.
pub fn too_short(
    n: usize,
    parents: usize,
    order: usize,
    pops: usize,
    starts: usize,
    work: usize,
) -> bool
    requires { n ≤ max_columns }
    ensures { result ≡ some_short (fixed_for n parents order pops starts work) }
{
    if parents < n {
        return true;
    }
    if order < n {
        return true;
    }
    if pops < n {
        return true;
    }
    if starts < n + 1 {
        return true;
    }
    work < work_length(n)
}

// Tests 1 to 7: the job, then the lengths of parents, order, pops, factor starts and work. Answers the first refusal.
pub fn early_fault(
    job: Job,
    parents: usize,
    order: usize,
    pops: usize,
    fstarts: usize,
    work: usize,
) -> Result<(), Refused>
    ensures { verdict_from result ≡ first early_refusals (record {
      job = job_given job.entry;
      slices = fixed_for job.entry.head.n parents order pops fstarts work;
    }) }
{
    job::first_fault(job)?;
    if too_short(job.head.n as usize, parents, order, pops, fstarts, work) {
        return refuse(Refusal::SliceTooShort, 0, 0);
    }
    Ok(())
}
