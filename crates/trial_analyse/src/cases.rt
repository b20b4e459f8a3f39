// A pattern under a mark: what the elimination says of it, and the calls that are compared with that. A sheet holds all of it: the lists of
// the fill, the plan, the peak as its room, and in its head the mark and the seed, which name the pattern.
use super::call::{Lengths, Right, wrong_in_call};
use papers::{Answer, JobHead};
use trial_comparison::Held;
use trial_elimination::grid::{Grid, add};
use trial_elimination::sheet::{Sheet, get, length, set};
use trial_elimination::{fill, orders, sheet, stack};
use trial_lists::shapes;

// Places in the head of a sheet.
const MARK: usize = 20;

const SEED: usize = 21;

// What else is counted of all patterns: the factor rows, and the peaks under each mark.
#[derive(Clone, Copy, Drop)]
pub struct Notes {
    pub rows: u64,
    pub peaks: [u64; 3],
}

pub type Tally = trial_tallies::Tally<Notes>;

impl Notes {
    pub fn new() -> Notes {
        Notes {
            rows: 0,
            peaks: [0; 3],
        }
    }

    // Counts the factor rows and the peak of a pattern under a mark.
    fn note(&mut self, sheet: &Sheet, mark: usize) {
        self.rows = self.rows.saturating_add(length(sheet, sheet::ROWS) as u64);
        let peak = &mut self.peaks[mark % 3];
        *peak = peak.saturating_add(get(sheet, sheet::HEAD, sheet::ROOM) as u64);
    }
}

// Writes what the elimination says of a pattern under a mark into a sheet that holds nothing of another pattern. Answers the peak.
pub fn work_out(sheet: &mut Sheet, pattern: &Grid, n: usize, mark: usize) -> usize {
    let mut grid = *pattern;
    fill::eliminate(&mut grid);
    fill::write_lists(sheet, &grid, n);
    orders::write_plan(sheet, mark);
    stack::peak(sheet, 0)
}

// The limits tried: one below the peak, the peak, one above it, 0, and the greatest.
fn limit(peak: usize, choice: usize) -> usize {
    match choice % 5 {
        0 => peak.saturating_sub(1),
        1 => peak,
        2 => add(peak, 1),
        3 => 0,
        _ => papers::MAX_LIMIT as usize,
    }
}

// The lengths tried for the factor rows: one below the rows needed, exactly these, three above, and 0.
fn rows_length(needed: usize, choice: usize) -> usize {
    match choice / 5 % 4 {
        0 => needed.saturating_sub(1),
        1 => needed,
        2 => add(needed, 3),
        _ => 0,
    }
}

// A slice's length: its fixed length and up to three more, or one less if this slice is to be short.
fn lent(fixed: usize, seed: usize, choice: usize, short: usize) -> usize {
    if choice == short {
        return fixed.saturating_sub(1);
    }
    let lot = shapes::next(add(seed, add(choice, short)));
    add(fixed, shapes::choice(lot, 4))
}

// The lengths of the lent slices at a choice. Below 20 all have their fixed length, from 20 to 24 one does not.
fn lengths(sheet: &Sheet, choice: usize) -> Lengths {
    let n = sheet::n(sheet);
    let seed = shapes::next(get(sheet, sheet::HEAD, SEED));
    [
        lent(n, seed, choice, 20),
        lent(n, seed, choice, 21),
        lent(n, seed, choice, 22),
        lent(add(n, 1), seed, choice, 23),
        rows_length(length(sheet, sheet::ROWS), choice),
        lent(n % 25 * 8 + 8, seed, choice, 24),
    ]
}

// Tests whether a choice lends a slice below its fixed length; no slice is below 0.
fn short(n: usize, choice: usize) -> bool {
    if n == 0 {
        return 23 <= choice;
    }
    20 <= choice
}

// An answer without a place, and what the slices must hold.
fn right(number: u64, count: usize, held: Held) -> Right {
    let answer = Answer {
        number,
        place: 0,
        count: count as u64,
    };
    Right { answer, held }
}

// What is right for a sound job: 7, which keeps what the slices held, 8 or 9, which leave zeros, or done.
fn right_answer(sheet: &Sheet, choice: usize) -> Right {
    let rows = length(sheet, sheet::ROWS);
    let peak = get(sheet, sheet::HEAD, sheet::ROOM);
    if short(sheet::n(sheet), choice) {
        return right(7, 0, Held::Before);
    }
    if rows_length(rows, choice) < rows {
        return right(8, rows, Held::Zeros);
    }
    if limit(peak, choice) < peak {
        return right(9, peak, Held::Zeros);
    }
    right(0, peak, Held::Result)
}

// The head of the job at a choice.
fn head(sheet: &Sheet, choice: usize) -> JobHead {
    trial_comparison::head(
        sheet::n(sheet),
        get(sheet, sheet::HEAD, MARK) as u64,
        limit(get(sheet, sheet::HEAD, sheet::ROOM), choice) as u64,
    )
}

// Makes the calls with the limit and the lengths of every choice.
fn hold_choices(tally: &mut Tally, starts: &[u64], rows: &[u32], sheet: &Sheet) {
    for choice in 0..25 {
        let right = right_answer(sheet, choice);
        let lent = lengths(sheet, choice);
        let wrong = wrong_in_call(head(sheet, choice), starts, rows, &lent, sheet, right);
        let seed = get(sheet, sheet::HEAD, SEED);
        tally.tell(right.answer.number, wrong, seed as u64, choice as u64);
    }
}

// Writes what the elimination says, the peak as the room, mark and seed into the sheet of a pattern.
fn write_result(sheet: &mut Sheet, pattern: &Grid, n: usize, mark: usize, seed: usize) {
    let peak = work_out(sheet, pattern, n, mark);
    set(sheet, sheet::HEAD, sheet::ROOM, peak);
    set(sheet, sheet::HEAD, MARK, mark);
    set(sheet, sheet::HEAD, SEED, seed);
}

// Compares the analysis of a pattern under a mark with what the elimination says. The sheet first holds the job's lists; those of the fill
// are written over them.
pub fn hold_pattern(
    tally: &mut Tally,
    sheet: &mut Sheet,
    pattern: &Grid,
    n: usize,
    mark: usize,
    seed: usize,
) {
    fill::write_lists(sheet, pattern, n);
    let starts = trial_comparison::longs(sheet, sheet::STARTS);
    let rows = trial_comparison::words(sheet, sheet::ROWS);
    let a = trial_comparison::count(sheet, sheet::STARTS);
    let b = trial_comparison::count(sheet, sheet::ROWS);
    write_result(sheet, pattern, n, mark, seed);
    hold_choices(tally, &starts[..a], &rows[..b], sheet);
    tally.notes.note(sheet, mark);
}
