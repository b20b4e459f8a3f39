// Tries the check of a plan against answers from a plain reading of the rules, written apart from the product (tests/damage.py, which also
// made the input and says what a line is): sound plans and plans damaged in many ways, short slices, limits about the peak, keys of other
// jobs, bad jobs. Compares number, place, count and what each of the six lent slices holds afterwards. Prints how often each number was
// answered; it names a case with anything wrong by its line, with what was answered.
#![tactic(auto)]

mod call; // call.rt: one call, compared

use trial_lines::line;
use trial_tallies::Tally;

// The numbers that a check answers.
const ANSWERED: [usize; 21] = [
    0, 1, 2, 3, 4, 5, 6, 7, 8, 9, 10, 11, 12, 13, 14, 15, 16, 17, 18, 19, 20,
];

// Ends in the same way if the output takes nothing.
fn main() {
    let mut tally = Tally::new(());
    line::each(1000000, |numbers, _k| call::hold(&mut tally, numbers));
    let _ = tally.print("answered", &ANSWERED);
}
