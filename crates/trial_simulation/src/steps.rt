// The steps of a run: 14 and 21 to 24.
use super::answer;
use super::fronts::fits;
use papers::Answer;
use trial_elimination::sheet;
use trial_elimination::sheet::{Sheet, get};
use trial_elimination::stack::Stack;

// Tests whether all rows of the topmost `pops` updates are in the front of c.
fn all_fit(case: &Sheet, stack: &Stack, c: usize, pops: usize) -> bool {
    let height = stack.height();
    (height.saturating_sub(pops)..height).all(|k| fits(case, c, stack.column(k)))
}

// The first of 14, 21, 22 and 23 that holds of a step that would use this much room.
fn step_fault(case: &Sheet, stack: &Stack, c: usize, pops: usize, used: usize) -> Option<u64> {
    if c == 0 || sheet::n(case) < c {
        return Some(14);
    }
    if stack.height() < pops {
        return Some(21);
    }
    if !all_fit(case, stack, c, pops) {
        return Some(22);
    }
    if get(case, sheet::HEAD, sheet::ROOM) < used {
        return Some(23);
    }
    None
}

// Does the steps one after the other, up to the first that is refused, and refuses with 24 if updates are left after the last one. Answers
// the greatest room of all steps; a refusal counts the greatest of those before it.
pub fn run(case: &Sheet, n: usize) -> Result<usize, Answer> {
    let mut stack = Stack::new();
    let mut greatest = 0usize;
    for k in 0..n {
        let c = get(case, sheet::COLUMNS, k);
        let pops = get(case, sheet::POPS, k);
        let used = stack.in_use(case, c, pops);
        if let Some(number) = step_fault(case, &stack, c, pops, used) {
            return Err(answer(number, k + 1, greatest));
        }
        greatest = greatest.max(used);
        stack.change(case, c, pops);
    }
    if stack.height() != 0 {
        return Err(answer(24, n, greatest));
    }
    Ok(greatest)
}
