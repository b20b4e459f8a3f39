// Bad jobs, with their refusals worked out by hand. Each leaves all lent slices untouched, as its line says. A line is a case as
// tests/damage.py describes it, without plan bytes and without results; all six lengths are the same. The cases are: 1 to 3, alone and
// several at once, of which the first decides; 4 at place 0, for the number of starts and for the first start; 4 at the lowest column whose
// start falls, and at n for the last start; 5, a row up to its column or beyond n; 6, a row up to the one before it; both faults in one
// row, which is 5, and faults in two columns, of which the earlier decides; 7, which comes after the tests of the job and before 8 and 9.
use super::call::{Lengths, Right, wrong_in_call};
use super::cases::Tally;
use std::array;
use trial_comparison::no_result;
use trial_elimination::sheet::EMPTY;
use trial_lines::line::Numbers;
use trial_lines::{line, sheet};

fn lengths(numbers: &Numbers) -> Lengths {
    array::from_fn(|slice| line::lent(numbers, slice))
}

// Counts what is wrong in the call of a bad job, which has no result.
fn wrong(numbers: &Numbers, starts: &[u64], rows: &[u32]) -> usize {
    let right = Right {
        answer: line::right(numbers),
        held: no_result(line::kept(numbers)),
    };
    wrong_in_call(
        line::head(numbers),
        starts,
        rows,
        &lengths(numbers),
        &EMPTY,
        right,
    )
}

pub fn hold(tally: &mut Tally, numbers: &Numbers, job: usize) {
    let starts = sheet::longs(numbers, line::STARTS);
    let rows = sheet::words(numbers, line::ROWS);
    let a = line::count(numbers, line::STARTS) % 1153;
    let b = line::count(numbers, line::ROWS) % 513;
    let wrong = wrong(numbers, &starts[..a], &rows[..b]);
    tally.tell(line::right(numbers).number, wrong, 0, job as u64);
}
