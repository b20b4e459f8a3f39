// A job as code hands it on, and its tests, 1 to 6, in the order of the rules' table.
#![tactic(auto)]

ghost use Rattle.std.specs.Prelude.{◌≡◌};
ghost use Rattle.papers.specs.Refusals.{first};
ghost use Rattle.papers.specs.Job.{job_refusals};
ghost use Rattle.refusals.specs.Answers.{verdict_from};
ghost use Rattle.job.specs.Given.{job_given};

use papers::JobHead;
use refusals::{Refusal, Refused, refuse};

// A job as code hands it on: its three numbers, and its starts and rows, which stay where they were lent.
#[derive(Clone, Copy)]
pub struct Job<'a> {
    pub head: JobHead,
    pub starts: &'a [u64],
    pub rows: &'a [u32],
}

// Answers the first of 1 to 6 that refuses. Computes nothing from n before n is known to be within its bound.
pub fn first_fault(job: Job) -> Result<(), Refused>
    ensures { verdict_from result ≡ first job_refusals (job_given job.entry) }
{
    let head = job.head;
    if papers::MAX_COLUMNS < head.n {
        return refuse(Refusal::TooManyColumns, 0, 0);
    }
    if papers::MAX_MARK < head.mark {
        return refuse(Refusal::UnknownMark, 0, 0);
    }
    if papers::MAX_LIMIT < head.limit {
        return refuse(Refusal::LimitTooHigh, 0, 0);
    }
    job_starts::starts_fault(head.n, job.starts, job.rows)?;
    job_rows::rows_fault(head.n, job.starts, job.rows)
}
