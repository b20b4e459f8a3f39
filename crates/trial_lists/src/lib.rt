// Draws patterns to try from a seed. A function that draws answers the next seed. Only this is proved: every function is safe and ends.
#![tactic(auto)]

pub mod shapes; // shapes.rt: named shapes, and random rows

use shapes::{Shape, choice, next};
use trial_elimination::fill;
use trial_elimination::grid::Grid;

// Takes away one row in eight.
fn thin(grid: &mut Grid, seed: usize) -> usize {
    let mut state = seed;
    for cell in grid.iter_mut() {
        state = next(state);
        if choice(state, 8) == 0 {
            *cell = 0;
        }
    }
    state
}

// Draws a pattern of n columns: a named shape, sometimes with a random tree, sometimes with random rows.
pub fn draw_pattern(grid: &mut Grid, n: usize, seed: usize) -> usize {
    let a = next(seed);
    let b = next(a);
    let c = next(b);
    shapes::draw(grid, Shape::from(choice(a, 13)), n);
    if choice(b, 4) == 0 {
        shapes::tree(grid, n, c);
    }
    shapes::sprinkle(grid, choice(c, 4) % 4 * 7, n, next(c));
    c
}

// A pattern as it is, with its fill, or with most of its fill.
pub fn draw_grid(grid: &mut Grid, n: usize, seed: usize) -> usize {
    let a = next(draw_pattern(grid, n, seed));
    match choice(a, 3) {
        0 => a,
        1 => {
            fill::eliminate(grid);
            a
        }
        _ => {
            fill::eliminate(grid);
            thin(grid, a)
        }
    }
}
