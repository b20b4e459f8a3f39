// Holds write_key, write_plan and the solver's call against answers that a plain reading of the rules gave, apart from the product
// (tests/calls.py, which also made the input and says what a line of it is): byte slices of the exact length, longer and shorter, bad jobs,
// keys and plans that are sound, damaged or too large. The answer and every byte of the lent slice are compared; a plan that was
// written is checked, as the part of the slice that holds it. Prints how often each number was answered; a case with anything wrong is
// named by its line, with what was answered.
#![tactic(auto)]

mod call; // call.rt: one call, compared

use trial_lines::line;
use trial_tallies::Tally;

// The numbers that the calls answer.
const ANSWERED: [usize; 22] = [
    0, 1, 2, 3, 4, 5, 6, 8, 9, 10, 11, 12, 13, 14, 15, 16, 17, 18, 19, 20, 26, 27,
];

// Ends in the same way if the output takes nothing.
fn main() {
    let mut tally = Tally::new(());
    line::each(1000000, |numbers, _k| call::hold(&mut tally, numbers));
    let _ = tally.print("answered", &ANSWERED);
}
