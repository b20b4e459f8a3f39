// Compares a plan's beginning with the job's key.
#![tactic(auto)]

ghost use Rattle.std.specs.Prelude.{◌≡◌};
ghost use Rattle.papers.specs.Key.{key_of};
ghost use Rattle.job.specs.Given.{job_given};
ghost use Rattle.job_laws.specs.Passed.{Passed};
ghost use Rattle.check_key.specs.Matches.{key_match};

use job::Job;
use lists::Lists;
use refusals::Fault;

// Compares the key of a job that passes its tests with the beginning of the plan. Answers the place behind the key, or refusal 11.
pub fn match_key(job: Job, plan: &[u8]) -> Result<usize, Fault>
    requires { Passed (job_given job) }
    ensures { result ≡ key_match (key_of (job_given job.entry)) plan.now }
{
    let head = job.head;
    let middle = check_numbers::match_two(plan, 0, papers::EDITION, head.n)?;
    let next = check_numbers::match_two(plan, middle, head.mark, head.limit)?;
    let pattern = Lists {
        starts: job.starts,
        rows: job.rows,
    };
    check_numbers::match_lists(head.n, pattern, plan, next)
}
