// The refusals of the lists: 4, 5 and 6.
use super::answer;
use papers::Answer;
use trial_elimination::grid::add;
use trial_elimination::sheet;
use trial_elimination::sheet::{Sheet, begin, get, length};

// 4 at place 0: there are not n + 1 starts, or the first is not 0.
fn bad_starts(case: &Sheet, n: usize) -> bool {
    length(case, sheet::STARTS) != add(n, 1) || get(case, sheet::STARTS, 0) != 0
}

// 4 at a column: the lowest whose rows would end before they begin.
fn falling(case: &Sheet, n: usize) -> Option<usize> {
    (1..=n).find(|j| get(case, sheet::STARTS, *j) < begin(case, *j))
}

// 4 at n: the last start is not the number of rows.
fn bad_last(case: &Sheet, n: usize) -> bool {
    get(case, sheet::STARTS, n) != length(case, sheet::ROWS)
}

// The column whose list contains the row at a place: the first that ends behind it. 0 if there is none, which no list that gets here has.
fn owner(case: &Sheet, n: usize, place: usize) -> usize {
    (0..n)
        .map(|j| j + 1)
        .find(|j| place < get(case, sheet::STARTS, *j))
        .unwrap_or(0)
}

// The fault of the row at a place: 5 if it does not exceed its column j or exceeds n, 6 if it does not exceed the row before it in the same
// list.
fn row_fault(case: &Sheet, n: usize, place: usize, j: usize) -> Option<u64> {
    let row = get(case, sheet::ROWS, place);
    if row <= j || n < row {
        return Some(5);
    }
    let first = begin(case, j) == place;
    if !first && row <= get(case, sheet::ROWS, place.saturating_sub(1)) {
        return Some(6);
    }
    None
}

// Refuses the first row with 5 or 6 in reading order.
fn test_rows(case: &Sheet, n: usize) -> Result<(), Answer> {
    for place in 0..length(case, sheet::ROWS) {
        let j = owner(case, n, place);
        if let Some(number) = row_fault(case, n, place, j) {
            return Err(answer(number, j, 0));
        }
    }
    Ok(())
}

// Refuses lists with 4, 5 or 6.
pub fn test(case: &Sheet, n: usize) -> Result<(), Answer> {
    if bad_starts(case, n) {
        return Err(answer(4, 0, 0));
    }
    if let Some(j) = falling(case, n) {
        return Err(answer(4, j, 0));
    }
    if bad_last(case, n) {
        return Err(answer(4, n, 0));
    }
    test_rows(case, n)
}
