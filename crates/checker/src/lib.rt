// The entry point of the check of a plan's bytes for a job.
#![tactic(auto)]

ghost use Rattle.papers.specs.Refusals.{EndsAs};
ghost use Rattle.papers.specs.Job.{job_of};
ghost use Rattle.papers.specs.Check.{checked};
ghost use Rattle.lent.specs.Six.{six_slices};

use job::Job;
use papers::{Answer, JobHead};

// Checks a plan's bytes. Tests 1 to 7, the bytes (11 to 15), the rows (8), then the plan (16 to 20, 9). When done, the
// slices hold the parents and the plan's order, pops, factor starts and factor rows, then zeros, and the count is the peak.
pub fn check_plan(
    head: JobHead,
    starts: &[u64],
    rows: &[u32],
    plan: &[u8],
    parents: &mut [u32],
    order: &mut [u32],
    pops: &mut [u32],
    fstarts: &mut [u64],
    frows: &mut [u32],
    work: &mut [u64],
) -> Answer
    ensures { EndsAs result
        (six_slices parents.new order.new pops.new fstarts.new frows.new
        work.new)
        (checked (job_of head starts.now rows.now) plan.now
        (six_slices parents.old order.old pops.old fstarts.old frows.old
        work.old)) }
{
    let job = Job { head, starts, rows };
    if let Err(refused) = lent_tests::early_fault(
        job,
        parents.len(),
        order.len(),
        pops.len(),
        fstarts.len(),
        work.len(),
    ) {
        return Answer::from(refused);
    }
    let judged = check_bytes::judge_bytes(job, plan, parents, order, pops, fstarts, frows, work);
    let answer = refusals::answer(judged);
    let refused = judged.is_err();
    if refused {
        lent::clear_all(parents, order, pops, fstarts, frows, work);
        return answer;
    }
    work.fill(0);
    answer
}
