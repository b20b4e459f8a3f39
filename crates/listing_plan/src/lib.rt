// Prints what is printed of a job: analyses it in lent slices, then writes its listing from them, or the line of its refusal.
#![tactic(auto)]

ghost use Rattle.job.specs.Given.{job_given};
ghost use Rattle.list_laws.specs.Wrote.{Wrote};
ghost use Rattle.lent.specs.Six.{six_slices};
ghost use Rattle.listing_plan.specs.PlanLines.{plan_lines, printed_from, PlanFits, PrintFits};

use job::Job;
use lists::Lists;
use papers::JobHead;

// Writes the listing of a plan, which the slices hold, to the start of bytes, and answers its length.
fn print_plan(
    head: JobHead,
    peak: u64,
    order: &[u32],
    pops: &[u32],
    factor: Lists,
    below: &mut [u64],
    bytes: &mut [u8],
) -> usize
    requires { PlanFits head.n head.mark peak order.now pops.now factor.starts.now factor.rows.now below.old bytes.old }
    ensures { Wrote (plan_lines head.n head.mark peak order.now pops.now factor.entry.starts.now factor.entry.rows.now)
        bytes.old bytes.new 0 result }
{
    let first = listing_lines::write_header(head.n, head.mark, peak, bytes);
    listing_steps::write_steps(order, pops, factor, below, bytes, first)
}

// Analyses a job in lent slices, writes its listing or the line of its refusal to the start of bytes, and answers its length.
pub fn print_analysis(
    job: Job,
    parents: &mut [u32],
    order: &mut [u32],
    pops: &mut [u32],
    fstarts: &mut [u64],
    frows: &mut [u32],
    work: &mut [u64],
    bytes: &mut [u8],
) -> usize
    requires { PrintFits (job_given job)
        (six_slices parents.old order.old pops.old fstarts.old frows.old work.old) bytes.old }
    ensures { Wrote (printed_from (job_given job.entry)
        (six_slices parents.old order.old pops.old fstarts.old frows.old
        work.old))
        bytes.old bytes.new 0 result }
{
    let answer = analysis::analyse(
        job.head, job.starts, job.rows, parents, order, pops, fstarts, frows, work,
    );
    if answer.number != 0 {
        return listing_lines::write_refusal(answer, bytes);
    }
    let n = job.head.n as usize;
    let last = fstarts[n] as usize;
    let factor = Lists {
        starts: &fstarts[..n + 1],
        rows: &frows[..last],
    };
    print_plan(
        job.head,
        answer.count,
        &order[..n],
        &pops[..n],
        factor,
        work,
        bytes,
    )
}
