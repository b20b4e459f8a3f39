// The entry point of the analysis of a job.
#![tactic(auto)]

ghost use Rattle.papers.specs.Refusals.{EndsAs};
ghost use Rattle.papers.specs.Job.{job_of};
ghost use Rattle.papers.specs.Analysis.{analysed};
ghost use Rattle.lent.specs.Six.{six_slices};

use job::Job;
use papers::{Answer, JobHead};

// Analyses a job. Tests 1 to 7, then 8 and 9. When done, the slices hold parents, order, pops, factor starts and factor rows, then
// zeros, and the count is the peak. Clears the slices after 8 and 9.
pub fn analyse(
    head: JobHead,
    starts: &[u64],
    rows: &[u32],
    parents: &mut [u32],
    order: &mut [u32],
    pops: &mut [u32],
    fstarts: &mut [u64],
    frows: &mut [u32],
    work: &mut [u64],
) -> Answer
    ensures { EndsAs result
        (six_slices parents.new order.new pops.new fstarts.new frows.new
        work.new)
        (analysed (job_of head starts.now rows.now)
        (six_slices parents.old order.old pops.old fstarts.old frows.old
        work.old)) }
{
    let job = Job { head, starts, rows };
    if let Err(refused) = lent_tests::early_fault(
        job,
        parents.len(),
        order.len(),
        pops.len(),
        fstarts.len(),
        work.len(),
    ) {
        return Answer::from(refused);
    }
    let plan = lent_plan::planned(job, parents, order, pops, fstarts, frows, work);
    let answer = refusals::answer(plan);
    let refused = plan.is_err();
    if refused {
        lent::clear_all(parents, order, pops, fstarts, frows, work);
    }
    answer
}
