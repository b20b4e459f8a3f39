// Writes the key of a job into a lent slice.
#![tactic(auto)]

ghost use Rattle.std.specs.Prelude.{◌≡◌};
ghost use Rattle.papers.specs.Refusals.{passed, first, EndsAs};
ghost use Rattle.papers.specs.Job.{job_of, job_refusals};
ghost use Rattle.papers.specs.Key.{key_of};
ghost use Rattle.papers.specs.Analysis.{key_written};
ghost use Rattle.job.specs.Given.{job_given};
ghost use Rattle.job_laws.specs.Passed.{Passed};
ghost use Rattle.list_laws.specs.Wrote.{Wrote};

use job::Job;
use lists::Lists;
use papers::{Answer, JobHead};

// Writes the key of a job to the start of a slice, as far as the slice goes, and answers the place behind it: the bytes needed.
pub fn put_key(job: Job, bytes: &mut [u8]) -> usize
    requires { Passed (job_given job) }
    ensures { Wrote (key_of (job_given job.entry)) bytes.old bytes.new 0 result }
{
    let head = job.head;
    let edition = write_number::put(bytes, 0, papers::EDITION);
    let n = write_number::put(bytes, edition, head.n);
    let mark = write_number::put(bytes, n, head.mark);
    let limit = write_number::put(bytes, mark, head.limit);
    let pattern = Lists {
        starts: job.starts,
        rows: job.rows,
    };
    write_lists::write_lists(head.n, pattern, bytes, limit)
}

// The entry point of writing a key. Tests 1 to 6, then 10, which counts the bytes needed. When done, the slice holds the key, then zeros,
// and the count is the bytes of the key.
pub fn write_key(head: JobHead, starts: &[u64], rows: &[u32], bytes: &mut [u8]) -> Answer
    ensures { EndsAs result bytes.new (key_written (job_of head starts.now rows.now) bytes.old) }
{
    let job = Job { head, starts, rows };
    if let Err(refused) = job::first_fault(job) {
        return Answer::from(refused);
    }
    let needed = put_key(job, bytes);
    refusals::answer(write_stored::finish(bytes, needed))
}
