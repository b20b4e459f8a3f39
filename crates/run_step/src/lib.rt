// Takes one step of a run.
#![tactic(auto)]

ghost use Rattle.run_step.specs.Ready.{Ready, StepTaken};

use run_front::Factor;
use run_held::Held;

// Takes a step that has no fault, after `done` steps: pops its updates, and puts its own column on the stack list, unless it is a root.
pub fn take_step(
    factor: Factor,
    columns: &[u32],
    pops: &[u32],
    stack: &mut [u32],
    held: Held,
    done: u64,
) -> Held
    requires { Ready factor.n factor.starts.now factor.rows.now columns.now pops.now stack.old held done }
    ensures { StepTaken factor.entry.n factor.entry.starts.now factor.entry.rows.now columns.now pops.now stack.old held done
        stack.new result }
{
    let column = columns[done as usize];
    let off = u64::from(pops[done as usize]);
    let popped = run_updates::popped_entries(factor, stack, held, off);
    let room = run_updates::room_in_use(factor, stack, held, off, u64::from(column));
    let update = run_front::entries_of(factor, u64::from(column));
    let next = run_held::advance(held, off, popped, update, room);
    if update == 0 {
        return next;
    }
    stack[next.count as usize - 1] = column;
    next
}
