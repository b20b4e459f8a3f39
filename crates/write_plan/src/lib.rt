// Writes the bytes of a plan into a lent slice: its key, its steps, its lists and its peak.
#![tactic(auto)]

ghost use Rattle.papers.specs.Refusals.{EndsAs};
ghost use Rattle.papers.specs.Numbers.{encode};
ghost use Rattle.papers.specs.Plan.{step_numbers, bytes_of_plan};
ghost use Rattle.refusals.specs.Answers.{answer_from};
ghost use Rattle.job.specs.Given.{job_given};
ghost use Rattle.list_laws.specs.Wrote.{Wrote};
ghost use Rattle.write_stored.specs.Stored.{stored};
ghost use Rattle.write_plan.specs.Lists.{step_pairs, plan_in, StepsNear, Writable};

use job::Job;
use lists::Lists;
use refusals::Refused;

// Writes the steps from `at` on, and answers the place behind them. In the loop those that came are written up to next.
pub fn write_steps(order: &[u32], pops: &[u32], bytes: &mut [u8], at: usize) -> usize
    requires { StepsNear order.now pops.now at }
    ensures { Wrote (encode (step_numbers (step_pairs order.now pops.now))) bytes.old bytes.new at result }
{
    let mut next = at;
    for (column, popped) in order.iter().zip(pops) {
        next = write_number::put(bytes, next, u64::from(*column));
        next = write_number::put(bytes, next, u64::from(*popped));
    }
    next
}

// Writes the plan of a job to the start of a slice, as far as the slice goes, and answers the place behind it: the bytes needed.
pub fn put_plan(
    job: Job,
    order: &[u32],
    pops: &[u32],
    factor: Lists,
    peak: u64,
    bytes: &mut [u8],
) -> usize
    requires { Writable (job_given job) order.now pops.now factor.starts.now factor.rows.now peak }
    ensures { Wrote (bytes_of_plan (job_given job.entry)
        (plan_in job.entry.head.n order.now pops.now factor.entry.starts.now factor.entry.rows.now peak))
        bytes.old bytes.new 0 result }
{
    let key = key::put_key(job, bytes);
    let steps = write_steps(order, pops, bytes, key);
    let lists = write_lists::write_lists(job.head.n, factor, bytes, steps);
    write_number::put(bytes, lists, peak)
}

// Writes the plan of a job with these steps, lists and peak into a lent slice, then zeros. Counts the bytes, or refuses with 10 and the
// bytes needed if it does not fit.
pub fn store_plan(
    job: Job,
    order: &[u32],
    pops: &[u32],
    factor: Lists,
    peak: u64,
    bytes: &mut [u8],
) -> Result<u64, Refused>
    requires { Writable (job_given job) order.now pops.now factor.starts.now factor.rows.now peak }
    ensures { EndsAs (answer_from result) bytes.new
        (stored (bytes_of_plan (job_given job.entry)
        (plan_in job.entry.head.n order.now pops.now factor.entry.starts.now factor.entry.rows.now peak))
        bytes.old) }
{
    let needed = put_plan(job, order, pops, factor, peak, bytes);
    write_stored::finish(bytes, needed)
}
