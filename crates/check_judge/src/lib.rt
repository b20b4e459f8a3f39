// The judgement on a plan that was read: tests 16 to 20 and 9.
#![tactic(auto)]

ghost use Rattle.job.specs.Given.{job_given};
ghost use Rattle.lent.specs.Six.{six_slices};
ghost use Rattle.refusals.specs.Answers.{answer_from};
ghost use Rattle.check_judge.specs.Judged.{PlanGiven, TreeGiven, TreeJudged, Judgement};

use job::Job;
use lists::Lists;
use refusals::{Refusal, Refused, refuse};

// Tests 18, 19, 20 and 9 of a plan whose lists are right; parents are those of its lists. Ok is the peak.
fn judge_tree(
    limit: u64,
    peak: u64,
    parents: &[u32],
    order: &[u32],
    pops: &[u32],
    fstarts: &[u64],
    work: &mut [u64],
) -> Result<u64, Refused>
    requires { TreeGiven limit peak parents.now order.now pops.now fstarts.now work.old }
    ensures { TreeJudged limit peak parents.now order.now pops.now fstarts.now (answer_from result) }
{
    if let Some(top) = check_subtrees::first_scattered(parents, order, work) {
        return refuse(Refusal::SubtreeScattered, top, 0);
    }
    if let Some(step) = check_steps::first_wrong_pops(parents, order, pops, work) {
        return refuse(Refusal::PopsNotChildren, step, 0);
    }
    let true_peak = room::peak(fstarts, order, pops, work).peak;
    if true_peak != peak {
        return refuse(Refusal::PeakNotDeclared, 0, true_peak);
    }
    if limit < true_peak {
        return refuse(Refusal::PeakOverLimit, 0, true_peak);
    }
    Ok(true_peak)
}

// Tests 16 to 20 and 9 of a plan that was read to the start of the slices; peak is what it declares. If the plan passes, stores the job's
// parents, and Ok is the peak.
pub fn judge(
    job: Job,
    peak: u64,
    parents: &mut [u32],
    order: &[u32],
    pops: &[u32],
    factor: Lists,
    work: &mut [u64],
) -> Result<u64, Refused>
    requires { PlanGiven (job_given job) peak
        (six_slices parents.old order.now pops.now factor.starts.now factor.rows.now work.old) }
    ensures { Judgement (job_given job.entry) peak parents.old order.now
        pops.now factor.entry.starts.now factor.entry.rows.now parents.new (answer_from result) }
{
    let n = job.head.n as usize;
    let steps = &order[..n];
    if let Some(step) = check_steps::first_repeat(steps, work) {
        return refuse(Refusal::ColumnRepeated, step, 0);
    }
    let pattern = Lists {
        starts: job.starts,
        rows: job.rows,
    };
    if let Some(column) = check_lists::first_wrong_list(n, pattern, factor, parents, work) {
        return refuse(Refusal::ListNotTheFill, column, 0);
    }
    judge_tree(
        job.head.limit,
        peak,
        &parents[..n],
        steps,
        &pops[..n],
        &factor.starts[..n + 1],
        work,
    )
}
