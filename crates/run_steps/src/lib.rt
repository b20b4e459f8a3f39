// Runs the steps one after the other: tests each step, takes it, and finds what the run answers.
#![tactic(auto)]

ghost use Rattle.std.specs.Prelude.{◌≡◌};
ghost use Rattle.refusals.specs.Answers.{answer_from};
ghost use Rattle.run_updates.specs.Kept.{run_of};
ghost use Rattle.run_steps.specs.Steps.{StepsGiven, answer_of_steps};

use refusals::{Refusal, Refused};
use run_front::Factor;
use run_held::Held;

// Runs all steps. Refuses by the first fault, 14, 21, 22 or 23; else by 24 if updates are left. The count, also of a refusal, is the
// greatest room in use of the completed steps. In the loop the stack list holds the columns of the updates held after `done` steps,
// bottom first.
pub fn steps(
    factor: Factor,
    columns: &[u32],
    pops: &[u32],
    room: u64,
    stack: &mut [u32],
) -> Result<u64, Refused>
    requires { StepsGiven factor.n factor.starts.now factor.rows.now columns.now pops.now stack.old }
    ensures { answer_from result ≡ answer_of_steps (run_of factor.entry.n factor.entry.starts.now factor.entry.rows.now
        columns.now pops.now room stack.old) }
{
    let n = factor.n;
    let mut held = Held {
        count: 0,
        entries: 0,
        greatest: 0,
    };
    for done in 0..n {
        match run_faults::step_fault(factor, columns, pops, room, stack, held, done) {
            Ok(()) => held = run_step::take_step(factor, columns, pops, stack, held, done),
            Err(refusal) => return refusals::refuse(refusal, done + 1, held.greatest),
        }
    }
    if held.count != 0 {
        return refusals::refuse(Refusal::UpdatesLeft, n, held.greatest);
    }
    Ok(held.greatest)
}
