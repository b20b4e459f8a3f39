// The entry point of the listing: prints a job text's listing into a lent slice, in fixed zeroed buffers of the program's sizes. It prints
// the line of the text's refusal, or what is printed of its job.
#![tactic(auto)]

ghost use Rattle.std.specs.Prelude.{◌≤◌, length};
ghost use Rattle.papers.specs.Refusals.{EndsAs};
ghost use Rattle.job.specs.Given.{job_given};
ghost use Rattle.papers.specs.Text.{buffers, program_prints, listed};
ghost use Rattle.list_laws.specs.Wrote.{Wrote};
ghost use Rattle.listing_plan.specs.PlanLines.{printed_from};
ghost use Rattle.listing.specs.JobFits.{JobFits};

use job::Job;
use papers::Answer;
use refusals::{Refusal, Refused};

// Writes what is printed of a job to the start of bytes, and answers its length.
fn print_job(job: Job, bytes: &mut [u8]) -> usize
    requires { JobFits (job_given job) bytes.old }
    ensures { Wrote (printed_from (job_given job.entry) buffers) bytes.old bytes.new 0 result }
{
    let mut parents = [0u32; program_sizes::COLUMNS];
    let mut order = [0u32; program_sizes::COLUMNS];
    let mut pops = [0u32; program_sizes::COLUMNS];
    let mut fstarts = [0u64; program_sizes::STARTS];
    let mut frows = [0u32; program_sizes::FACTOR_ROWS];
    let mut work = [0u64; program_sizes::WORK];
    listing_plan::print_analysis(
        job,
        &mut parents,
        &mut order,
        &mut pops,
        &mut fstarts,
        &mut frows,
        &mut work,
        bytes,
    )
}

// Writes what is printed of a text to the start of bytes, and answers its length. `more` says whether the text continues behind what is
// lent.
fn print_text(text: &[u8], more: bool, bytes: &mut [u8]) -> usize
    requires { length (program_prints (record { text = text.now; more = more })) ≤ length bytes.old }
    ensures { Wrote (program_prints (record { text = text.now; more = more })) bytes.old bytes.new 0 result }
{
    let mut starts = [0u64; program_sizes::STARTS];
    let mut rows = [0u32; program_sizes::PATTERN_ROWS];
    match text_reader::read_job(text, more, &mut starts, &mut rows) {
        Err(fault) => listing_lines::write_refusal(Answer::from(Refused::from(fault)), bytes),
        Ok((head, count)) => {
            let n = head.n as usize;
            let job = Job {
                head,
                starts: &starts[..n + 1],
                rows: &rows[..count],
            };
            print_job(job, bytes)
        }
    }
}

// Writes what the program prints of a text into bytes, then zeros: the listing of its job, or the line of a refusal. `more` says whether
// the text continues behind what is lent. The count is the bytes printed; the answer is 7 if the slice is shorter than any listing may
// need.
pub fn listing(text: &[u8], more: bool, bytes: &mut [u8]) -> Answer
    ensures { EndsAs result bytes.new (listed (record { text = text.now; more = more }) bytes.old) }
{
    if bytes.len() < program_sizes::LISTING_BYTES {
        return Answer::from(Refused {
            refusal: Refusal::SliceTooShort,
            place: 0,
            count: 0,
        });
    }
    bytes.fill(0);
    let printed = print_text(text, more, bytes);
    refusals::done(printed as u64)
}
