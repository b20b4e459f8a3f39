// Writes plans, and checks them under the key of any mark. Writes the lists of a check into a case, as a run takes them.
use papers::{Answer, JobHead};
use trial_comparison::{SMALL, Slices, count, longs, words};
use trial_elimination::grid::add;
use trial_elimination::sheet;
use trial_elimination::sheet::{Sheet, get, set, set_length};

// More bytes than any plan of 24 columns.
pub type Plan = [u8; 1024];

// A job's head, with the greatest limit.
fn head(job: &Sheet, mark: u8) -> JobHead {
    trial_comparison::head(sheet::n(job), u64::from(mark), papers::MAX_LIMIT)
}

// Writes the plan of a job under a mark. Answers how many bytes it has.
pub fn write(job: &Sheet, mark: u8, plan: &mut Plan) -> u64 {
    let starts = longs(job, sheet::STARTS);
    let rows = words(job, sheet::ROWS);
    let mut slices = SMALL;
    let written = plan_bytes::write_plan(
        head(job, mark),
        &starts[..count(job, sheet::STARTS)],
        &rows[..count(job, sheet::ROWS)],
        &mut slices.parents,
        &mut slices.order,
        &mut slices.pops,
        &mut slices.starts,
        &mut slices.rows,
        &mut slices.work,
        plan,
    );
    written.count
}

// Copies so many numbers of a list to a part of a case.
fn write_list<T: Copy + Into<u64>>(case: &mut Sheet, part: usize, list: &[T; 300], count: usize) {
    for (i, x) in list.iter().enumerate().take(count % 301) {
        let number: u64 = (*x).into();
        set(case, part, i, number as usize);
    }
    set_length(case, part, count);
}

// Writes what a check found into a case with a stack list of n places. The last start says how many rows there are.
fn write_case(case: &mut Sheet, n: usize, found: &Slices<300, 300>) {
    set(case, sheet::HEAD, sheet::N, n);
    set_length(case, sheet::STACK, n);
    write_list(case, sheet::COLUMNS, &found.order, n);
    write_list(case, sheet::POPS, &found.pops, n);
    write_list(case, sheet::STARTS, &found.starts, add(n, 1));
    let count = get(case, sheet::STARTS, n);
    write_list(case, sheet::ROWS, &found.rows, count);
}

// Checks a plan, and writes its lists into a case with a stack list of n places.
fn check_lists(
    case: &mut Sheet,
    head: JobHead,
    starts: &[u64],
    rows: &[u32],
    plan: &[u8],
) -> Answer {
    let mut slices = SMALL;
    let answer = checker::check_plan(
        head,
        starts,
        rows,
        plan,
        &mut slices.parents,
        &mut slices.order,
        &mut slices.pops,
        &mut slices.starts,
        &mut slices.rows,
        &mut slices.work,
    );
    write_case(case, head.n as usize, &slices);
    answer
}

// Gives a plan the key of a mark: writes the mark as its third byte.
fn keyed(plan: &Plan, key: u8) -> Plan {
    let mut bytes = *plan;
    bytes[2] = key;
    bytes
}

// Checks a plan of so many bytes, handed on as the part that holds it, under the key of a mark.
pub fn check(case: &mut Sheet, job: &Sheet, plan: &Plan, length: u64, key: u8) -> Answer {
    let starts = longs(job, sheet::STARTS);
    let rows = words(job, sheet::ROWS);
    check_lists(
        case,
        head(job, key),
        &starts[..count(job, sheet::STARTS)],
        &rows[..count(job, sheet::ROWS)],
        slices::part(&keyed(plan, key), (length % 1025) as usize),
    )
}
