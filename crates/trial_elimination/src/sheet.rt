// A sheet: the lists of a pattern, its plan and the arguments of a run, 34 parts of 300 numbers. Parts and places wrap, so every number is
// a place.
use super::grid::add;

// A part of a sheet.
pub type Part = [usize; 300];

pub type Sheet = [Part; 34];

// A sheet that holds nothing.
pub const EMPTY: Sheet = [[0; 300]; 34];

// The head holds a room, n, and behind n the lengths of the parts up to the stack list. Of the stack list, and of work, a sheet holds
// nothing else: they are zero.
pub const HEAD: usize = 0;

pub const ROOM: usize = 0;

pub const N: usize = 1;

// The lists of the columns, and the steps.
pub const STARTS: usize = 1;

pub const ROWS: usize = 2;

pub const COLUMNS: usize = 3;

pub const POPS: usize = 4;

pub const STACK: usize = 5;

// The parents, that of column 1 first.
pub const PARENTS: usize = 6;

// At the place of a column: its measure among its siblings, and how many steps its subtree has. Place 0 of the sizes holds how many steps
// the whole order has.
pub const KEYS: usize = 7;

pub const SIZES: usize = 8;

// A part of a sheet.
pub fn part(sheet: &Sheet, part: usize) -> &Part {
    &sheet[part % 34]
}

pub fn get(sheet: &Sheet, part: usize, place: usize) -> usize {
    sheet[part % 34][place % 300]
}

pub fn set(sheet: &mut Sheet, part: usize, place: usize, value: usize) {
    sheet[part % 34][place % 300] = value;
}

// The part that holds the columns of the subtree of j, step by step; of the whole order if j is 0.
pub fn subtree(j: usize) -> usize {
    if j == 0 {
        return COLUMNS;
    }
    add(SIZES, j)
}

pub fn n(sheet: &Sheet) -> usize {
    get(sheet, HEAD, N)
}

pub fn length(sheet: &Sheet, part: usize) -> usize {
    get(sheet, HEAD, add(N, part))
}

pub fn set_length(sheet: &mut Sheet, part: usize, length: usize) {
    set(sheet, HEAD, add(N, part), length);
}

// Where the rows of column c begin in the list of all rows.
pub fn begin(sheet: &Sheet, c: usize) -> usize {
    get(sheet, STARTS, c.saturating_sub(1))
}

// How many rows column c has.
pub fn row_count(sheet: &Sheet, c: usize) -> usize {
    get(sheet, STARTS, c).saturating_sub(begin(sheet, c))
}

// The parent of column c: its least row, 0 if it has none.
pub fn parent(sheet: &Sheet, c: usize) -> usize {
    if row_count(sheet, c) == 0 {
        return 0;
    }
    get(sheet, ROWS, begin(sheet, c))
}

// How many columns have c as their parent.
pub fn children(sheet: &Sheet, c: usize) -> usize {
    (0..n(sheet)).filter(|k| parent(sheet, k + 1) == c).count()
}
