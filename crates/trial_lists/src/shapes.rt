// Patterns to try: named shapes and random ones, made from a seed.
use trial_elimination::grid::{Grid, add, put};

// The number after a seed, below 2^31. Its low digits repeat soon, so a choice uses the high ones.
pub fn next(seed: usize) -> usize {
    (seed % 2147483648 * 1103515245 + 12345) % 2147483648
}

// A choice among `count` numbers from 0 on.
pub fn choice(seed: usize, count: usize) -> usize {
    if count == 0 {
        return 0;
    }
    seed / 65536 % count
}

// The named shapes. Behind the first two come those that have one row in each column.
#[derive(Clone, Copy, Drop)]
pub enum Shape {
    Nothing,
    Everything,
    Chain,
    // A star with its centre last, or first.
    LastCentre,
    FirstCentre,
    // Chains of four.
    Chains,
    // Leaves under a chain.
    Leaves,
    Caterpillar,
    BinaryTree,
    Band,
    // Blocks of four under the last column.
    Blocks,
    // Columns of up to three of the last rows.
    LastRows,
}

// The shape of a drawn number; of a number beyond the shapes nothing.
impl From<usize> for Shape {
    fn from(number: usize) -> Shape {
        match number {
            1 => Shape::Everything,
            2 => Shape::Chain,
            3 => Shape::LastCentre,
            4 => Shape::FirstCentre,
            5 => Shape::Chains,
            6 => Shape::Leaves,
            7 => Shape::Caterpillar,
            8 => Shape::BinaryTree,
            9 => Shape::Band,
            10 => Shape::Blocks,
            11 => Shape::LastRows,
            _ => Shape::Nothing,
        }
    }
}

// The parent of j in a binary tree over 1 to n whose root is n and whose levels follow each other downwards.
fn halved(j: usize, n: usize) -> usize {
    let top = add(n, 1);
    top.saturating_sub(top.saturating_sub(j) / 2)
}

impl Shape {
    // Tests whether it has row i in column j of n.
    fn has(self, i: usize, j: usize, n: usize) -> bool {
        match self {
            Shape::Nothing => false,
            Shape::Everything => true,
            Shape::Chain => i == add(j, 1),
            Shape::LastCentre => i == n,
            Shape::FirstCentre => j == 1,
            Shape::Chains => i == add(j, (j % 4 + 3) / 4),
            Shape::Leaves => i == add(add(n / 2, j.saturating_sub(n / 2)), 1),
            Shape::Caterpillar => i == add(j, 2 - j % 2),
            Shape::BinaryTree => i == halved(j, n),
            Shape::Band => i <= add(j, 2),
            Shape::Blocks => i.saturating_sub(1) / 4 == j.saturating_sub(1) / 4 || i == n,
            Shape::LastRows => n < add(i, j % 4),
        }
    }
}

// Couples row i to column j, if it is below the diagonal and at most n.
fn couple(grid: &mut Grid, i: usize, j: usize, n: usize) {
    if j != 0 && j < i && i <= n {
        put(grid, i, j, 1);
    }
}

// How many cells the columns up to n have. The cells go column by column.
fn cells(n: usize) -> usize {
    n % 25 * 25 + 25
}

// A named shape over n columns.
pub fn draw(grid: &mut Grid, shape: Shape, n: usize) {
    for place in 0..cells(n) {
        if shape.has(place % 25, place / 25, n) {
            couple(grid, place % 25, place / 25, n);
        }
    }
}

// Adds a random row to every column but the last.
pub fn tree(grid: &mut Grid, n: usize, seed: usize) {
    let mut state = seed;
    for j in 1..25 {
        state = next(state);
        couple(
            grid,
            add(add(j, 1), choice(state, n.saturating_sub(j))),
            j,
            n,
        );
    }
}

// Adds each row below the diagonal once in `odds`, at random; none if `odds` is 0.
pub fn sprinkle(grid: &mut Grid, odds: usize, n: usize, seed: usize) {
    let mut state = seed;
    for place in 0..cells(n) {
        state = next(state);
        if add(choice(state, odds), 1) == odds {
            couple(grid, place % 25, place / 25, n);
        }
    }
}
