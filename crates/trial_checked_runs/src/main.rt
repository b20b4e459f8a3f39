// Runs plans that passed the check, in the room of their peak and in one less: patterns of up to 24 columns in many shapes, the plan of
// each mark, and each of these plans under the key of every mark, so that the check also passes orders that the mark of its key would not
// give. In the peak a run answers what the check did; in one less it is refused with 23, at the place and with the count that a simulation
// gives. Prints a tally; it names a plan with anything wrong by the seed of its pattern and the key of its check.
#![tactic(auto)]

mod plans; // plans.rt: plans written and checked

use papers::Answer;
use plans::Plan;
use std::fmt;
use std::fmt::Write;
use trial_elimination::sheet::{Sheet, set};
use trial_elimination::{fill, sheet};
use trial_tallies::Output;

// The sum of all peaks is noted beside the tally.
type Tally = trial_tallies::Tally<u64>;

// What is tried of a plan, as the number of its case: plans that passed the check, runs in the peak that were done, runs in one less that
// were refused with 23.
const CHECKED: usize = 0;

const DONE: usize = 1;

const BELOW: usize = 2;

// Counts what is wrong in a run in one less than the peak: it must be refused with 23, as the simulation is.
fn wrong_below(case: &Sheet) -> usize {
    let right = trial_simulation::simulate(case);
    if right.number != 23 {
        return 1;
    }
    trial_run_call::wrong_in_call(case, right, trial_simulation::keeps(case))
}

// Runs a plan that passed the check, in its peak and in one less. In the peak it must be done, and a run that is done keeps nothing.
fn hold_runs(tally: &mut Tally, case: &mut Sheet, checked: Answer, seed: u64, key: u64) {
    let peak = checked.count as usize;
    set(case, sheet::HEAD, sheet::ROOM, peak);
    let wrong = trial_run_call::wrong_in_call(case, checked, false);
    tally.tell(DONE as u64, wrong, seed, key);
    if peak != 0 {
        set(case, sheet::HEAD, sheet::ROOM, peak - 1);
        let wrong = wrong_below(case);
        tally.tell(BELOW as u64, wrong, seed, key);
    }
}

// Checks a plan of this many bytes under the key of a mark, which must pass. Writes its lists into a case.
fn hold_plan(
    tally: &mut Tally,
    case: &mut Sheet,
    job: &Sheet,
    plan: &Plan,
    count: u64,
    key: u8,
    seed: u64,
) {
    let checked = plans::check(case, job, plan, count, key);
    let mark = u64::from(key);
    tally.tell(CHECKED as u64, checked.number as usize, seed, mark);
    if checked.number == 0 {
        tally.notes = tally.notes.saturating_add(checked.count);
        hold_runs(tally, case, checked, seed, mark);
    }
}

// Tries the plan of a mark under the key of each mark.
fn hold_mark(tally: &mut Tally, case: &mut Sheet, job: &Sheet, mark: u8, seed: u64) {
    let mut plan = [0u8; 1024];
    let count = plans::write(job, mark, &mut plan);
    for key in 0..3 {
        hold_plan(tally, case, job, &plan, count, key, seed);
    }
}

// Tries the pattern of a seed under every mark.
fn hold_seed(tally: &mut Tally, case: &mut Sheet, seed: usize) {
    let n = seed % 25;
    let mut grid = [0usize; 625];
    let mut job = sheet::EMPTY;
    trial_lists::draw_pattern(&mut grid, n, seed);
    fill::write_lists(&mut job, &grid, n);
    for mark in 0..3 {
        hold_mark(tally, case, &job, mark, seed as u64);
    }
}

fn hold_all(tally: &mut Tally, seeds: usize) {
    let mut case = sheet::EMPTY;
    for seed in 0..seeds {
        hold_seed(tally, &mut case, seed);
    }
}

fn print(tally: &Tally) -> fmt::Result {
    let mut out = Output;
    writeln!(out, "plans that passed the check: {}", tally.right(CHECKED))?;
    writeln!(out, "runs in the peak, done: {}", tally.right(DONE))?;
    writeln!(out, "runs in one less, refused 23: {}", tally.right(BELOW))?;
    writeln!(out, "peaks together {}", tally.notes)?;
    writeln!(out, "mismatches {}", tally.wrong())
}

// Ends in the same way if the output takes nothing.
fn main() {
    let mut tally = Tally::new(0);
    hold_all(&mut tally, 500);
    let _ = print(&tally);
}
