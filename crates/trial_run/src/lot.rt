// Draws random steps.
use trial_elimination::grid::add;
use trial_elimination::sheet;
use trial_elimination::sheet::{Sheet, get, set};
use trial_lists::shapes::{choice, next};

// Draws the column after column c: any of n, c or the next, or one of the last two.
fn column(kind: usize, c: usize, n: usize, seed: usize) -> usize {
    match kind {
        0 => add(choice(seed, n), 1),
        1 => add(c, choice(seed, 2)).min(n),
        _ => n.saturating_sub(choice(seed, 2)),
    }
}

// Draws columns, often repeated, and pops below a number.
fn write_steps(case: &mut Sheet, n: usize, kind: usize, pops: usize, seed: usize) -> usize {
    let mut state = seed;
    let mut c = 1;
    for k in 0..n {
        let a = next(state);
        state = next(a);
        c = column(kind, c, n, a);
        set(case, sheet::COLUMNS, k, c);
        set(case, sheet::POPS, k, choice(state, pops));
    }
    state
}

// Takes one off the pops of the step that is refused with 21, or with a number up to the given one. Answers whether there was such a step.
fn mend_step(case: &mut Sheet, upto: u64) -> bool {
    let right = trial_simulation::simulate(case);
    if right.number < 21 || upto < right.number {
        return false;
    }
    let step = (right.place as usize).saturating_sub(1);
    let pops = get(case, sheet::POPS, step);
    set(case, sheet::POPS, step, pops.saturating_sub(1));
    true
}

// Mends pops this many times.
fn mend(case: &mut Sheet, upto: u64, times: usize) {
    for _ in 0..times {
        if !mend_step(case, upto) {
            return;
        }
    }
}

// Draws up to which number pops are mended: no more than are held, or their rows are in the front too.
fn mended(lot: usize) -> u64 {
    if lot == 0 {
        return 21;
    }
    22
}

// Draws the columns and the pops of a case. Mends the pops, except in a quarter of the cases.
pub fn draw_lot(case: &mut Sheet, seed: usize) -> usize {
    let a = next(seed);
    let b = next(a);
    let n = sheet::n(case);
    let c = next(write_steps(case, n, choice(a, 3), add(choice(b, 4), 1), b));
    let d = next(c);
    if choice(c, 4) != 0 {
        mend(case, mended(choice(d, 2)), 36);
    }
    d
}
