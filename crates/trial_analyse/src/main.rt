// Tries the analysis against an elimination written apart from it: patterns of up to 24 columns in many shapes, every mark, limits about
// the peak, factor slices about the rows needed, slices lent too short, the rules' bench pieces, and bad jobs. Compares number, place,
// count and every place of the six slices. Prints a tally by right answers; it names a case with anything wrong by its seed and its choice
// of limit and lengths.
#![tactic(auto)]

mod call; // call.rt: one call, compared
mod cases; // cases.rt: a pattern under a mark
mod bench; // bench.rt: bench pieces
mod bad; // bad.rt: bad jobs

use cases::{Notes, Tally};
use std::fmt;
use std::fmt::Write;
use trial_elimination::grid::Grid;
use trial_elimination::sheet;
use trial_lines::line;
use trial_lines::line::Numbers;
use trial_lists::shapes;
use trial_lists::shapes::Shape;
use trial_tallies::Output;

// How many lines of the input are bad jobs. The lines after them are bench pieces.
const JOBS: usize = 32;

// A random row is put into a pattern once in this many draws: two kinds are random only, the others get a few in later rounds.
fn odds(kind: usize, round: usize) -> usize {
    match kind {
        14 => round % 100 * 2 + 3,
        15 => round % 100 * 3 + 8,
        _ => 40usize.checked_div(round).unwrap_or(0),
    }
}

// A pattern of one of sixteen kinds: the named shapes, random trees, and random rows.
fn draw(grid: &mut Grid, n: usize, kind: usize, round: usize, seed: usize) {
    shapes::draw(grid, Shape::from(kind), n);
    if kind / 2 == 6 {
        shapes::tree(grid, n, shapes::next(seed));
    }
    shapes::sprinkle(grid, odds(kind, round), n, shapes::next(shapes::next(seed)));
}

// Tries the pattern of a seed under every mark. The seed gives its number of columns, its kind and its round.
fn hold(tally: &mut Tally, seed: usize) {
    let n = seed % 25;
    let mut grid = [0usize; 625];
    let mut sheet = sheet::EMPTY;
    draw(&mut grid, n, seed / 25 % 16, seed / 400, seed);
    for mark in 0..3 {
        cases::hold_pattern(tally, &mut sheet, &grid, n, mark, seed);
    }
}

// Tries the patterns of the first seeds.
fn hold_drawn(tally: &mut Tally, seeds: usize) {
    for seed in 0..seeds {
        hold(tally, seed);
    }
}

fn hold_line(tally: &mut Tally, numbers: &Numbers, line: usize) {
    if line < JOBS {
        bad::hold(tally, numbers, line);
        return;
    }
    bench::hold(tally, numbers);
}

fn print(tally: &Tally) -> fmt::Result {
    let mut out = Output;
    writeln!(out, "cases {}", tally.cases())?;
    write!(out, "done, and refused 1 to 9")?;
    for number in 0..10 {
        write!(out, " {}", tally.right(number))?;
    }
    writeln!(out)?;
    writeln!(out, "factor rows {}", tally.notes.rows)?;
    let [a, b, c] = tally.notes.peaks;
    writeln!(out, "peaks under mark 0, 1, 2 {a} {b} {c}")?;
    writeln!(out, "mismatches {}", tally.wrong())
}

// Ends in the same way if the output takes nothing.
fn main() {
    let mut tally = Tally::new(Notes::new());
    line::each(1000, |numbers, k| hold_line(&mut tally, numbers, k));
    hold_drawn(&mut tally, 800);
    let _ = print(&tally);
}
