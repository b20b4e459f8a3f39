// Fill and lists of rows. In a grid the cell (i, j) with j < i is 1 if row i is coupled to column j, and 0 if not; row 0 and column 0 stay
// 0. A place from 0 to 624 names a cell, column by column.
use super::grid::{Grid, add, cell, put};
use super::sheet;
use super::sheet::{Sheet, set, set_length};

// Tests whether row i, below the diagonal, is coupled to column j.
fn coupled(grid: &Grid, i: usize, j: usize) -> bool {
    j < i && cell(grid, i, j) == 1
}

// Couples every row that is coupled to column k and is below row j to column j.
fn join(grid: &mut Grid, k: usize, j: usize) {
    for i in add(j, 1)..25 {
        if coupled(grid, i, k) {
            put(grid, i, j, 1);
        }
    }
}

// Eliminates all columns, in ascending order: each couples all its rows with each other. What was a pattern is then its fill.
pub fn eliminate(grid: &mut Grid) {
    for place in 0..625 {
        let j = place % 25;
        let k = place / 25;
        if coupled(grid, j, k) {
            join(grid, k, j);
        }
    }
}

// Writes row i of column j, if it is coupled to it, behind `count` rows. Answers how many rows are then written, which is where the next
// column's rows start.
fn list(sheet: &mut Sheet, grid: &Grid, i: usize, j: usize, count: usize) -> usize {
    if coupled(grid, i, j) {
        set(sheet, sheet::ROWS, count, i);
        return add(count, 1);
    }
    count
}

// Writes the starts and the rows of the columns of a grid up to n, the rows of a column ascending, one column after the other. Answers how
// many rows there are.
fn list_columns(sheet: &mut Sheet, grid: &Grid, n: usize) -> usize {
    let mut count = 0;
    for place in 0..n % 25 * 25 + 25 {
        let j = place / 25;
        count = list(sheet, grid, place % 25, j, count);
        set(sheet, sheet::STARTS, j, count);
    }
    count
}

// Writes n and the lists of a grid of n columns into a sheet.
pub fn write_lists(sheet: &mut Sheet, grid: &Grid, n: usize) {
    let count = list_columns(sheet, grid, n);
    set(sheet, sheet::HEAD, sheet::N, n);
    set_length(sheet, sheet::STARTS, add(n, 1));
    set_length(sheet, sheet::ROWS, count);
}
