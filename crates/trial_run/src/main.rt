// Tries the run against a simulation written apart from it, over drawn cases that meet every refusal of a run. Compares number, place,
// count and every place of the stack list. Prints a tally by right answers; it names a case with anything wrong by its seed, and its right
// place.
#![tactic(auto)]

mod cases; // cases.rt: drawn cases
mod lot; // lot.rt: steps by lot
mod damage; // damage.rt: an argument changed
mod notes; // notes.rt: what else is told of a case

use notes::Notes;
use std::fmt;
use std::fmt::Write;
use trial_elimination::sheet;
use trial_elimination::sheet::Sheet;
use trial_tallies::{Output, Tally};

// The numbers that a run refuses with.
const REFUSED: [usize; 10] = [1, 4, 5, 6, 7, 14, 21, 22, 23, 24];

// Tries one case; what else is counted of it may change it.
fn hold(tally: &mut Tally<Notes>, case: &mut Sheet, seed: usize) {
    let right = trial_simulation::simulate(case);
    let kept = trial_simulation::keeps(case);
    let wrong = trial_run_call::wrong_in_call(case, right, kept);
    tally.tell(right.number, wrong, seed as u64, right.place);
    tally.notes.note(case, right);
}

fn hold_all(tally: &mut Tally<Notes>, count: usize) {
    let mut case = sheet::EMPTY;
    let mut seed = 1;
    for _ in 0..count {
        let after = cases::draw_case(&mut case, seed);
        hold(tally, &mut case, seed);
        seed = after;
    }
}

// Prints what else was counted, and how much is wrong.
fn print_notes(out: &mut Output, tally: &Tally<Notes>) -> fmt::Result {
    let notes = &tally.notes;
    writeln!(out, "done with a column repeated: {}", notes.repeated)?;
    writeln!(
        out,
        "refused 22 for an update below the top: {}",
        notes.deep
    )?;
    writeln!(out, "places together {}", notes.places)?;
    writeln!(out, "counts together {}", notes.counts)?;
    writeln!(out, "mismatches {}", tally.wrong())
}

fn print(tally: &Tally<Notes>) -> fmt::Result {
    let mut out = Output;
    writeln!(out, "cases {}", tally.cases())?;
    writeln!(out, "done: {}", tally.right(0))?;
    tally.print_numbers(&mut out, "refused", &REFUSED)?;
    print_notes(&mut out, tally)
}

// Ends in the same way if the output takes nothing.
fn main() {
    let mut tally = Tally::new(Notes::new());
    hold_all(&mut tally, 12000);
    let _ = print(&tally);
}
