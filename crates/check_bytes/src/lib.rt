// The judgement on a plan's bytes: compares them with the key, reads them into the slices, and judges the plan there.
#![tactic(auto)]

ghost use Rattle.job.specs.Given.{job_given};
ghost use Rattle.lent.specs.Six.{six_slices};
ghost use Rattle.refusals.specs.Answers.{answer_from};
ghost use Rattle.check_bytes.specs.Ruled.{check_of, Checkable, Ruled};

use job::Job;
use lists::Lists;
use refusals::{Refusal, Refused, refuse};

// Tests 11 to 15, 8, 16 to 20 and 9 for a job that passed its tests, in slices that are long enough. If the plan passes, the slices hold
// it, then zeros, and Ok is its peak. The caller clears work, and after a refusal every slice.
pub fn judge_bytes(
    job: Job,
    plan: &[u8],
    parents: &mut [u32],
    order: &mut [u32],
    pops: &mut [u32],
    fstarts: &mut [u64],
    frows: &mut [u32],
    work: &mut [u64],
) -> Result<u64, Refused>
    requires { Checkable (job_given job) (six_slices parents.old order.old pops.old fstarts.old frows.old work.old) }
    ensures { Ruled
        (check_of (job_given job.entry) plan.now
        (six_slices parents.old order.old pops.old fstarts.old frows.old
        work.old))
        parents.new order.new pops.new fstarts.new frows.new (answer_from result) }
{
    let next = check_key::match_key(job, plan)?;
    lent::clear_all(parents, order, pops, fstarts, frows, work);
    let found = read_plan::read_plan(job.head.n, plan, next, order, pops, fstarts, frows)?;
    if (frows.len() as u64) < found.rows {
        return refuse(Refusal::FactorRowsDoNotFit, 0, found.rows);
    }
    let factor = Lists {
        starts: fstarts,
        rows: frows,
    };
    check_judge::judge(job, found.peak, parents, order, pops, factor, work)
}
