// The updates held in the lent stack list: tests whether the popped ones fit a front, sums their entries, and computes the room in use of a
// front over them.
#![tactic(auto)]

ghost use Rattle.std.specs.Prelude.{◌≡◌, length, take};
ghost use Rattle.papers.specs.Lists.{sum};
ghost use Rattle.papers.specs.Job.{column_of};
ghost use Rattle.papers.specs.Room.{room_at};
ghost use Rattle.papers.specs.Run.{entries, fits};
ghost use Rattle.run_updates.specs.Kept.{held_in_order, factor_of, PopsHeld, FrontOver};

use run_front::Factor;
use run_held::Held;

// Tests whether every row of every popped update is in the front of the column, from the top down. In the loop the updates at the
// places from `place` on pass.
pub fn popped_fit(factor: Factor, stack: &[u32], held: Held, pops: u64, column: u64) -> bool
    requires { FrontOver factor.n factor.starts.now factor.rows.now stack.now held pops column }
    ensures { result ≡ fits (factor_of factor.entry.n factor.entry.starts.now factor.entry.rows.now) column
        (take pops (held_in_order held.count stack.now)) }
{
    let front = run_front::rows_of(factor, column);
    let count = held.count;
    for place in (count - pops..count).rev() {
        let update = run_front::rows_of(factor, u64::from(stack[place as usize]));
        if !run_front::stands_in(column, front, update) {
            return false;
        }
    }
    true
}

// Sums the entries of the popped updates, from the top down. In the loop those at the places from `place` on are added.
pub fn popped_entries(factor: Factor, stack: &[u32], held: Held, pops: u64) -> u64
    requires { PopsHeld factor.n factor.starts.now factor.rows.now stack.now held pops }
    ensures { result ≡ sum (entries (factor_of factor.entry.n factor.entry.starts.now factor.entry.rows.now)
        (take pops (held_in_order held.count stack.now))) }
{
    let count = held.count;
    let mut total = 0;
    for place in (count - pops..count).rev() {
        total += run_front::entries_of(factor, u64::from(stack[place as usize]));
    }
    total
}

// The room in use at a step: all that is held before it, without the top update if it pops any, and its front.
pub fn room_in_use(factor: Factor, stack: &[u32], held: Held, pops: u64, column: u64) -> u64
    requires { FrontOver factor.n factor.starts.now factor.rows.now stack.now held pops column }
    ensures { result ≡ room_at pops (length (column_of factor.entry.starts.now factor.entry.rows.now column))
        (entries (factor_of factor.entry.n factor.entry.starts.now factor.entry.rows.now) (held_in_order held.count stack.now)) }
{
    let front = triangle::entries(run_front::rows_of(factor, column).len() as u64 + 1);
    if pops == 0 {
        return held.entries + front;
    }
    let top = run_front::entries_of(factor, u64::from(stack[held.count as usize - 1]));
    held.entries - top + front
}
