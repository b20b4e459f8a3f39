// Bench pieces: the rules' own numbers try the elimination, and the elimination tries the analysis. A line is a piece: n, the mark, the
// order as the digits of a number, the peak, how many rows there are, and every row with its column, as two digits. The pieces are:
// nothing; one pair; three columns without rows; dense; star; columns 1 with {3, 4} and 2 with {3}, where row 4 fills column 3; columns 1
// with {3}, 2 with {4} and 3 with {4}, whose numbering is no order; and the nine columns of the rules' example, under two marks.
use super::cases::{Tally, hold_pattern, work_out};
use trial_elimination::grid::{Grid, add, put};
use trial_elimination::sheet;
use trial_elimination::sheet::{Sheet, get};
use trial_lines::line::{Numbers, at};

// Places in a line.
const N: usize = 0;

const MARK: usize = 1;

const ORDER: usize = 2;

const PEAK: usize = 3;

const COUNT: usize = 4;

const ROWS: usize = 5;

fn part(piece: &Numbers, place: usize) -> usize {
    at(piece, place) as usize
}

// The pattern of a piece.
fn draw(grid: &mut Grid, piece: &Numbers) {
    for k in 0..part(piece, COUNT) {
        let pair = part(piece, add(ROWS, k));
        put(grid, pair / 10, pair % 10, 1);
    }
}

// The columns of an order of up to nine, as the digits of one number.
fn digits(sheet: &Sheet, n: usize) -> usize {
    (0..n)
        .map(|k| get(sheet, sheet::COLUMNS, k))
        .fold(0, |number, c| number % 100000000 * 10 + c % 10)
}

// Tests whether the elimination gives a pattern the order and the peak of a piece.
fn same(sheet: &mut Sheet, pattern: &Grid, piece: &Numbers) -> bool {
    let n = part(piece, N);
    let peak = work_out(sheet, pattern, n, part(piece, MARK));
    digits(sheet, n) == part(piece, ORDER) && peak == part(piece, PEAK)
}

// Tries the analysis of a pattern. The order and the peak of its piece name it.
fn hold_piece(tally: &mut Tally, sheet: &mut Sheet, pattern: &Grid, piece: &Numbers) {
    let seed = add(1000, add(part(piece, ORDER), part(piece, PEAK)));
    hold_pattern(
        tally,
        sheet,
        pattern,
        part(piece, N),
        part(piece, MARK),
        seed,
    );
}

pub fn hold(tally: &mut Tally, piece: &Numbers) {
    let mut pattern = [0usize; 625];
    let mut sheet = sheet::EMPTY;
    draw(&mut pattern, piece);
    if !same(&mut sheet, &pattern, piece) {
        tally.count_wrong();
    }
    hold_piece(tally, &mut sheet, &pattern, piece);
}
