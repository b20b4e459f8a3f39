// For the test programs: runs one case and compares. Only this is proved: every function is safe and ends.
#![tactic(auto)]

use papers::Answer;
use trial_comparison::{count, differences, filled, longs, no_result, words, wrong};
use trial_elimination::sheet;
use trial_elimination::sheet::{Sheet, get};

// Runs a case and counts what is wrong, in the answer and at every place of the stack list, which keeps what it held or is zero.
pub fn wrong_in_call(case: &Sheet, right: Answer, kept: bool) -> usize {
    let starts = longs(case, sheet::STARTS);
    let rows = words(case, sheet::ROWS);
    let columns = words(case, sheet::COLUMNS);
    let pops = words(case, sheet::POPS);
    let mut stack = filled();
    let lent = count(case, sheet::STACK);
    let found = stack_run::run(
        sheet::n(case) as u64,
        &starts[..count(case, sheet::STARTS)],
        &rows[..count(case, sheet::ROWS)],
        &columns[..count(case, sheet::COLUMNS)],
        &pops[..count(case, sheet::POPS)],
        get(case, sheet::HEAD, sheet::ROOM) as u64,
        &mut stack[..lent],
    );
    differences(found, right).saturating_add(wrong::<u32>(
        &stack,
        lent,
        no_result(kept),
        case,
        sheet::STACK,
    ))
}
