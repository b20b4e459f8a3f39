// Stores the bytes of a plan beside the lent slices that hold it.
#![tactic(auto)]

ghost use Rattle.papers.specs.Refusals.{EndsAs};
ghost use Rattle.papers.specs.Plan.{plan_of, bytes_of_plan};
ghost use Rattle.refusals.specs.Answers.{answer_from};
ghost use Rattle.job.specs.Given.{job_given};
ghost use Rattle.lent.specs.Six.{six_slices};
ghost use Rattle.plan_store.specs.AtStart.{JobPlanAtStart};
ghost use Rattle.plan_store.specs.Beside.{stored_beside};

use job::Job;
use lists::Lists;
use refusals::Refused;

// Stores the plan bytes of a job beside the slices of its analysis, which hold the plan. Counts the bytes; if they do not fit, refuses
// with 10 and the bytes needed, and clears all slices.
pub fn store_beside(
    job: Job,
    parents: &mut [u32],
    order: &mut [u32],
    pops: &mut [u32],
    fstarts: &mut [u64],
    frows: &mut [u32],
    work: &mut [u64],
    peak: u64,
    bytes: &mut [u8],
) -> Result<u64, Refused>
    requires { JobPlanAtStart (job_given job) order.old pops.old fstarts.old frows.old peak }
    ensures { EndsAs (answer_from result) (record {
      analysis = six_slices parents.new order.new pops.new fstarts.new
          frows.new work.new;
      bytes = bytes.new;
    })
        (stored_beside (bytes_of_plan (job_given job.entry)
        (plan_of (job_given job.entry)))
        (record {
          analysis = six_slices parents.old order.old pops.old fstarts.old
              frows.old work.old;
          bytes = bytes.old;
        })) }
{
    let n = job.head.n as usize;
    let last = fstarts[n] as usize;
    let factor = Lists {
        starts: &fstarts[..n + 1],
        rows: &frows[..last],
    };
    let stored = write_plan::store_plan(job, &order[..n], &pops[..n], factor, peak, bytes);
    if stored.is_err() {
        lent::clear_all(parents, order, pops, fstarts, frows, work);
    }
    stored
}
