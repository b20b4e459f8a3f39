// Makes the plan of a job in the six lent slices, its lists and its order, or refuses with 8 or 9.
#![tactic(auto)]

ghost use Rattle.refusals.specs.Answers.{answer_from};
ghost use Rattle.job.specs.Given.{job_given};
ghost use Rattle.lent.specs.Six.{six_slices};
ghost use Rattle.lent_plan.specs.Made.{Plannable, Made};

use job::Job;
use lists::Lists;
use refusals::{Refusal, Refused, refuse};

// Makes the plan of a job that passed its tests, in slices that are long enough: the lists, or 8 with the rows needed; then the order, or 9
// if its peak is over the limit. Answers the peak. A refusal leaves what was made so far.
pub fn planned(
    job: Job,
    parents: &mut [u32],
    order: &mut [u32],
    pops: &mut [u32],
    fstarts: &mut [u64],
    frows: &mut [u32],
    work: &mut [u64],
) -> Result<u64, Refused>
    requires { Plannable (job_given job) (six_slices parents.old order.old pops.old fstarts.old frows.old work.old) }
    ensures { Made (job_given job.entry)
        (six_slices parents.old order.old pops.old fstarts.old frows.old
        work.old)
        (six_slices parents.new order.new pops.new fstarts.new frows.new
        work.new) (answer_from result) }
{
    let head = job.head;
    let n = head.n as usize;
    let pattern = Lists {
        starts: job.starts,
        rows: job.rows,
    };
    let done = lent_lists::list_columns(n, pattern, parents, order, pops, fstarts, frows, work);
    if done < n {
        let needed = rows_needed::rows_needed(n, pattern, parents, work);
        return refuse(Refusal::FactorRowsDoNotFit, 0, needed);
    }
    let peak = lent_order::order_columns(head.mark, n, parents, order, pops, fstarts, work);
    if head.limit < peak {
        return refuse(Refusal::PeakOverLimit, 0, peak);
    }
    Ok(peak)
}
