// The entry point of writing a plan into a lent slice.
#![tactic(auto)]

ghost use Rattle.papers.specs.Refusals.{EndsAs};
ghost use Rattle.papers.specs.Job.{job_of};
ghost use Rattle.papers.specs.Analysis.{plan_written};
ghost use Rattle.lent.specs.Six.{six_slices};

use job::Job;
use papers::{Answer, JobHead};

// Makes a job's plan and writes it. Tests 1 to 7, then 8 and 9 as the analysis does, then 10, which counts the bytes needed; behind 7 every
// refusal clears all slices. When done, the slices hold the analysis and the plan, then zeros, and the count is the plan's bytes.
pub fn write_plan(
    head: JobHead,
    starts: &[u64],
    rows: &[u32],
    parents: &mut [u32],
    order: &mut [u32],
    pops: &mut [u32],
    fstarts: &mut [u64],
    frows: &mut [u32],
    work: &mut [u64],
    bytes: &mut [u8],
) -> Answer
    ensures { EndsAs result (record {
      analysis = six_slices parents.new order.new pops.new fstarts.new
          frows.new work.new;
      bytes = bytes.new;
    })
        (plan_written (job_of head starts.now rows.now)
        (record {
          analysis = six_slices parents.old order.old pops.old fstarts.old
              frows.old work.old;
          bytes = bytes.old;
        })) }
{
    let job = Job { head, starts, rows };
    if let Err(refused) = lent_tests::early_fault(
        job,
        parents.len(),
        order.len(),
        pops.len(),
        fstarts.len(),
        work.len(),
    ) {
        return Answer::from(refused);
    }
    match lent_plan::planned(job, parents, order, pops, fstarts, frows, work) {
        Ok(peak) => {
            let stored = plan_store::store_beside(
                job, parents, order, pops, fstarts, frows, work, peak, bytes,
            );
            refusals::answer(stored)
        }
        Err(refused) => {
            lent::clear_all(parents, order, pops, fstarts, frows, work);
            bytes.fill(0);
            Answer::from(refused)
        }
    }
}
