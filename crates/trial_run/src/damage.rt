// Changes one argument of a case.
use trial_elimination::grid::add;
use trial_elimination::sheet;
use trial_elimination::sheet::{Sheet, get, length, set};
use trial_lists::shapes::{choice, next};

// Draws the part to change; the head holds n and the lengths.
fn part_of(lot: usize) -> usize {
    match lot {
        0 | 1 | 2 => sheet::HEAD,
        3 | 4 => sheet::STARTS,
        5 | 6 => sheet::ROWS,
        7 | 8 => sheet::COLUMNS,
        _ => sheet::POPS,
    }
}

// Draws the place to change in a part with this many.
fn place_of(part: usize, places: usize, seed: usize) -> usize {
    if part == sheet::HEAD {
        return add(sheet::N, choice(seed, 6));
    }
    choice(seed, places)
}

// Draws a number to replace x: one of its neighbours, the least, the greatest of 32 and of 64 bits, the greatest n and one more, one more
// than n, or one from 0 to n.
fn other(x: usize, n: usize, lot: usize, seed: usize) -> usize {
    match lot {
        0 | 1 => x.saturating_sub(1),
        2 | 3 => add(x, 1),
        4 => 0,
        5 => 4294967295,
        6 => 18446744073709551615,
        7 => papers::MAX_COLUMNS as usize,
        8 => 4097,
        9 => add(n, 1),
        _ => choice(seed, add(n, 1)),
    }
}

// A number that the place can hold: starts and n have 64 bits, lengths go up to 300.
fn narrow(part: usize, place: usize, x: usize) -> usize {
    if part == sheet::STARTS || (part == sheet::HEAD && place == sheet::N) {
        return x;
    }
    if part == sheet::HEAD {
        return x % 301;
    }
    x % 4294967296
}

pub fn damage(case: &mut Sheet, seed: usize) -> usize {
    let a = next(seed);
    let b = next(a);
    let c = next(b);
    let d = next(c);
    let part = part_of(choice(a, 12));
    let place = place_of(part, length(case, part), b);
    let value = other(get(case, part, place), sheet::n(case), choice(c, 12), d);
    set(case, part, place, narrow(part, place, value));
    d
}
