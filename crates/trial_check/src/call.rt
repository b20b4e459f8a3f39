// Calls the check once, and compares what it does with what it must do.
use papers::Answer;
use trial_comparison::{LARGE, Slices, differences};
use trial_lines::line::{Numbers, lent};
use trial_lines::sheet::{BEFORE, wrong};
use trial_lines::{line, sheet};
use trial_tallies::Tally;

// What a call answered, and in how many places the answer and the slices are wrong.
#[derive(Clone, Copy, Drop)]
struct Found {
    answer: Answer,
    wrong: usize,
}

// Counts the places of the six slices that are wrong.
fn wrong_slices(numbers: &Numbers, slices: &Slices<512, 1152>) -> usize {
    wrong(&slices.parents, numbers, 0)
        .saturating_add(wrong(&slices.order, numbers, 1))
        .saturating_add(wrong(&slices.pops, numbers, 2))
        .saturating_add(wrong(&slices.starts, numbers, 3))
        .saturating_add(wrong(&slices.rows, numbers, 4))
        .saturating_add(wrong(&slices.work, numbers, 5))
}

// Lends slices of the case's lengths, calls the check, and compares.
fn call(numbers: &Numbers, starts: &[u64], rows: &[u32], plan: &[u8]) -> Found {
    let mut slices = LARGE;
    slices.fill(BEFORE);
    let answer = checker::check_plan(
        line::head(numbers),
        starts,
        rows,
        plan,
        &mut slices.parents[..lent(numbers, 0) % 513],
        &mut slices.order[..lent(numbers, 1) % 513],
        &mut slices.pops[..lent(numbers, 2) % 513],
        &mut slices.starts[..lent(numbers, 3) % 1153],
        &mut slices.rows[..lent(numbers, 4) % 513],
        &mut slices.work[..lent(numbers, 5) % 1153],
    );
    let wrong = differences(answer, line::right(numbers));
    Found {
        answer,
        wrong: wrong.saturating_add(wrong_slices(numbers, &slices)),
    }
}

// Tries one case.
pub fn hold(tally: &mut Tally<()>, numbers: &Numbers) {
    let starts = sheet::longs(numbers, line::STARTS);
    let rows = sheet::words(numbers, line::ROWS);
    let plan = sheet::bytes(numbers, line::PLAN);
    let a = line::count(numbers, line::STARTS) % 1153;
    let b = line::count(numbers, line::ROWS) % 513;
    let c = line::count(numbers, line::PLAN) % 2049;
    let Found { answer, wrong } = call(numbers, &starts[..a], &rows[..b], &plan[..c]);
    tally.tell(answer.number, wrong, answer.place, answer.count);
}
