// Grids of 25 by 25 numbers. Places count from 0 and wrap, so every number is a place.
pub type Grid = [usize; 625];

// The number in a row and a column of a grid.
pub fn cell(grid: &Grid, row: usize, column: usize) -> usize {
    grid[row % 25 * 25 + column % 25]
}

pub fn put(grid: &mut Grid, row: usize, column: usize, value: usize) {
    grid[row % 25 * 25 + column % 25] = value;
}

// The sum of two numbers below a million. No `+` or `saturating_add` in its place: of a greater number only the last six digits count, and
// so the cases that a program draws stay what they are.
pub fn add(a: usize, b: usize) -> usize {
    a % 1000000 + b % 1000000
}
