// Tests one step of a run for its four refusals: 14, 21, 22 and 23.
#![tactic(auto)]

ghost use Rattle.std.specs.Prelude.{◌≡◌, [], suc};
ghost use Rattle.papers.specs.Run.{fault_of_step};
ghost use Rattle.refusals.specs.Answers.{fault_from};
ghost use Rattle.run_updates.specs.Kept.{run_of, state_of};
ghost use Rattle.run_faults.specs.Given.{StepGiven};

use refusals::Refusal;
use run_front::Factor;
use run_held::Held;

// The fault of a step after `done` steps: 14 if there is no such column; 21 if fewer updates are held than it pops; 22 if the front has no
// place for a popped row; 23 if it needs more room than is given.
pub fn step_fault(
    factor: Factor,
    columns: &[u32],
    pops: &[u32],
    room: u64,
    stack: &[u32],
    held: Held,
    done: u64,
) -> Result<(), Refusal>
    requires { StepGiven factor.n factor.starts.now factor.rows.now columns.now pops.now stack.now held done }
    ensures { fault_from result ≡ fault_of_step (run_of factor.entry.n factor.entry.starts.now
        factor.entry.rows.now columns.now pops.now room []) (suc done)
        (state_of held stack.now) }
{
    let column = u64::from(columns[done as usize]);
    let off = u64::from(pops[done as usize]);
    if column < 1 {
        return Err(Refusal::ValueOutOfRange);
    }
    if factor.n < column {
        return Err(Refusal::ValueOutOfRange);
    }
    if held.count < off {
        return Err(Refusal::TooFewUpdates);
    }
    if !run_updates::popped_fit(factor, stack, held, off, column) {
        return Err(Refusal::RowOutsideFront);
    }
    if room < run_updates::room_in_use(factor, stack, held, off, column) {
        return Err(Refusal::RoomExceeded);
    }
    Ok(())
}
