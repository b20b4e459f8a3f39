// The front of a column: the column itself, and its rows.
use std::ops::Range;
use trial_elimination::sheet;
use trial_elimination::sheet::{Sheet, begin, get};

// The places of the rows of a column.
fn places(case: &Sheet, c: usize) -> Range<usize> {
    begin(case, c)..get(case, sheet::STARTS, c)
}

// Tests whether a row is in the front of c.
fn in_front(case: &Sheet, c: usize, row: usize) -> bool {
    row == c || places(case, c).any(|place| get(case, sheet::ROWS, place) == row)
}

// Tests whether all rows of column u are in the front of c.
pub fn fits(case: &Sheet, c: usize, u: usize) -> bool {
    places(case, u).all(|place| in_front(case, c, get(case, sheet::ROWS, place)))
}
