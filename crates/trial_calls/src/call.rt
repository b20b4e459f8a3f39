// One call of write_key, of write_plan or of the solver's check, compared with what it has to do.
use papers::Answer;
use trial_comparison::{LARGE, differences};
use trial_lines::line::Numbers;
use trial_lines::sheet::{BEFORE, Bytes};
use trial_lines::{line, sheet};
use trial_tallies::Tally;

// The bytes that have to stand at the start of the lent slice: the result in the first of the lent slices.
const WRITTEN: usize = 0;

// The list of the key's bytes.
const KEY: usize = 4;

// The lengths that name the slice for factor rows and the entry point.
const FACTOR_ROWS: usize = 1;

const ENTRY: usize = 5;

// What a call answered, and in how many places the answer and the slices are wrong.
#[derive(Clone, Copy, Drop)]
struct Found {
    answer: Answer,
    wrong: usize,
}

fn compared(numbers: &Numbers, answer: Answer, bytes: &Bytes) -> Found {
    let wrong = differences(answer, line::right(numbers));
    Found {
        answer,
        wrong: wrong.saturating_add(sheet::wrong(bytes, numbers, WRITTEN)),
    }
}

// Writes the key of the case's job.
fn write_key(numbers: &Numbers, starts: &[u64], rows: &[u32]) -> Found {
    let mut bytes = [BEFORE as u8; 4096];
    let a = line::lent(numbers, WRITTEN) % 4097;
    let answer = key::write_key(line::head(numbers), starts, rows, &mut bytes[..a]);
    compared(numbers, answer, &bytes)
}

// Tests whether the check of its own job refuses a written plan. The plan is handed on as the part of the slice that holds it.
fn fails(numbers: &Numbers, starts: &[u64], rows: &[u32], plan: &[u8]) -> bool {
    let mut slices = LARGE;
    let answer = checker::check_plan(
        line::head(numbers),
        starts,
        rows,
        plan,
        &mut slices.parents,
        &mut slices.order,
        &mut slices.pops,
        &mut slices.starts,
        &mut slices.rows,
        &mut slices.work,
    );
    answer.number != 0
}

// Writes the plan of the case's job, in slices that are long enough but for the factor rows and the bytes. A written plan is checked.
fn write_plan(numbers: &Numbers, starts: &[u64], rows: &[u32]) -> Found {
    let mut bytes = [BEFORE as u8; 4096];
    let mut slices = LARGE;
    slices.fill(BEFORE);
    let a = line::lent(numbers, WRITTEN) % 4097;
    let b = line::lent(numbers, FACTOR_ROWS) % 513;
    let answer = plan_bytes::write_plan(
        line::head(numbers),
        starts,
        rows,
        &mut slices.parents,
        &mut slices.order,
        &mut slices.pops,
        &mut slices.starts,
        &mut slices.rows[..b],
        &mut slices.work,
        &mut bytes[..a],
    );
    let found = compared(numbers, answer, &bytes);
    if answer.number != 0 {
        return found;
    }
    let plan = slices::part(&bytes, (answer.count % 4097) as usize);
    let fails = usize::from(fails(numbers, starts, rows, plan));
    Found {
        answer,
        wrong: found.wrong.saturating_add(fails),
    }
}

// The solver's call, whose answer is its number times 2^32, and its place.
fn check(numbers: &Numbers) -> Found {
    let key = sheet::bytes(numbers, KEY);
    let plan = sheet::bytes(numbers, line::PLAN);
    let a = line::count(numbers, KEY) % 4097;
    let b = line::count(numbers, line::PLAN) % 4097;
    let whole = solver::check(&key[..a], &plan[..b]);
    let answer = Answer {
        number: whole / 4294967296,
        place: whole % 4294967296,
        count: 0,
    };
    Found {
        answer,
        wrong: differences(answer, line::right(numbers)),
    }
}

fn call(numbers: &Numbers, starts: &[u64], rows: &[u32]) -> Found {
    match line::lent(numbers, ENTRY) {
        1 => write_key(numbers, starts, rows),
        2 => write_plan(numbers, starts, rows),
        _ => check(numbers),
    }
}

// Holds one case.
pub fn hold(tally: &mut Tally<()>, numbers: &Numbers) {
    let starts = sheet::longs(numbers, line::STARTS);
    let rows = sheet::words(numbers, line::ROWS);
    let a = line::count(numbers, line::STARTS) % 1153;
    let b = line::count(numbers, line::ROWS) % 513;
    let Found { answer, wrong } = call(numbers, &starts[..a], &rows[..b]);
    tally.tell(answer.number, wrong, answer.place, answer.count);
}
