// Draws runs to try, of up to 12 columns, from a seed: lists with and without fill, steps of a plan and random steps, repeated columns,
// damage to every argument, and rooms about the one needed. A function that draws answers the next seed.
use super::damage::damage;
use super::lot::draw_lot;
use trial_elimination::grid::add;
use trial_elimination::sheet::{Sheet, set};
use trial_elimination::{fill, orders, sheet};
use trial_lists::shapes::{choice, next};

// The greatest room.
const MOST: usize = 18446744073709551615;

// Puts a number that is never right at every place of the arguments; the stack list has none.
fn clear(case: &mut Sheet) {
    for part in case.iter_mut().take(5) {
        part.fill(7000);
    }
}

// Columns, pops and stack list have n places or a few more.
fn draw_lengths(case: &mut Sheet, seed: usize) -> usize {
    let mut state = seed;
    for part in sheet::COLUMNS..=sheet::STACK {
        state = next(state);
        let length = add(sheet::n(case), choice(state, 4));
        sheet::set_length(case, part, length);
    }
    state
}

// The lists of a grid of n columns.
fn draw_lists(case: &mut Sheet, n: usize, seed: usize) -> usize {
    let mut grid = [0usize; 625];
    let a = trial_lists::draw_grid(&mut grid, n, seed);
    fill::write_lists(case, &grid, n);
    a
}

// Draws all arguments but the room, which is the greatest: the steps are those of a plan, or random.
fn draw_steps(case: &mut Sheet, seed: usize) -> usize {
    let a = next(seed);
    let b = draw_lists(case, choice(a, 13), a);
    set(case, sheet::HEAD, sheet::ROOM, MOST);
    let c = next(draw_lengths(case, b));
    let d = next(c);
    if choice(c, 2) == 0 {
        orders::write_plan(case, choice(d, 3));
        return d;
    }
    draw_lot(case, d)
}

// Leaves half of the cases as they are; changes one argument of the others, or two.
fn draw_damage(case: &mut Sheet, seed: usize) -> usize {
    let a = next(seed);
    match choice(a, 6) {
        0..=2 => a,
        3 | 4 => damage(case, a),
        _ => {
            let b = damage(case, a);
            damage(case, b)
        }
    }
}

// Draws a room where this much is needed: this, one less, one more, something below, and the least and the greatest of all.
fn room_of(needed: usize, lot: usize, seed: usize) -> usize {
    match lot {
        0 => 0,
        1 => needed.saturating_sub(1),
        2 => add(needed, 1),
        3 => choice(seed, add(needed, 1)),
        4 => 9223372036854775808,
        5 => MOST,
        _ => needed,
    }
}

// Draws a room about what the steps need.
fn draw_room(case: &mut Sheet, seed: usize) -> usize {
    let needed = trial_simulation::simulate(case).count as usize;
    let a = next(seed);
    let b = next(a);
    let room = room_of(needed, choice(a, 8), b);
    set(case, sheet::HEAD, sheet::ROOM, room);
    b
}

// Draws the case of a seed into a sheet whose stack list is empty.
pub fn draw_case(case: &mut Sheet, seed: usize) -> usize {
    clear(case);
    let a = draw_steps(case, seed);
    let b = draw_damage(case, a);
    draw_room(case, b)
}
