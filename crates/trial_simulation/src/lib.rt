// A run straight from its rules, on a plain stack of column numbers: the test programs compare the proved run with it. It shares no code
// with that run. It takes runs of up to 31 columns, with their arguments in a sheet. Only this is proved: every function is safe and ends:
// places wrap and numbers stay small, so no function asks anything of its caller.
#![tactic(auto)]

mod lists; // lists.rt: 4, 5 and 6
mod fronts; // fronts.rt: the front of a column
mod steps; // steps.rt: 14 and 21 to 24

use papers::Answer;
use trial_elimination::sheet;
use trial_elimination::sheet::{Sheet, length};

fn answer(number: u64, place: usize, count: usize) -> Answer {
    Answer {
        number,
        place: place as u64,
        count: count as u64,
    }
}

// The most columns that a run takes, by this reading.
const MOST_COLUMNS: usize = 4096;

// Test 7: whether columns, pops or stack list have fewer than n places.
fn short(case: &Sheet, n: usize) -> bool {
    length(case, sheet::COLUMNS) < n
        || length(case, sheet::POPS) < n
        || length(case, sheet::STACK) < n
}

// Refuses a run before its steps: 1 or 4 to 7.
fn test(case: &Sheet, n: usize) -> Result<(), Answer> {
    if MOST_COLUMNS < n {
        return Err(answer(1, 0, 0));
    }
    lists::test(case, n)?;
    if short(case, n) {
        return Err(answer(7, 0, 0));
    }
    Ok(())
}

// A run: the greatest room of its steps, or the answer that refuses it.
fn run(case: &Sheet) -> Result<usize, Answer> {
    let n = sheet::n(case);
    test(case, n)?;
    steps::run(case, n)
}

// What a run must answer.
pub fn simulate(case: &Sheet) -> Answer {
    match run(case) {
        Ok(greatest) => answer(0, 0, greatest),
        Err(refused) => refused,
    }
}

// Tests whether a run must leave what the stack list holds: it does so if it is refused before its steps. From the steps on, the list must
// be zero after it.
pub fn keeps(case: &Sheet) -> bool {
    test(case, sheet::n(case)).is_err()
}
