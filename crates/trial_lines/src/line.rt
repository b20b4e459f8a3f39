// A case as numbers, and where its parts are among them. Places wrap, so every number is a place.
ghost use Rattle.std.specs.Prelude.{◌≤◌};

use papers::{Answer, JobHead};
use trial_elimination::grid::add;

pub type Numbers = [u64; 4096];

// The number, the place and the count of the right answer.
const RIGHT: usize = 3;

// 1 if the lent slices must keep what they held.
const KEPT: usize = 6;

// The counts of the nine lists: given starts, rows and plan bytes, then the result in each of the six lent slices.
const COUNTS: usize = 7;

// The lengths of the six lent slices.
const LENGTHS: usize = 16;

// The lists, one after the other.
const LISTS: usize = 22;

pub const STARTS: usize = 0;

pub const ROWS: usize = 1;

pub const PLAN: usize = 2;

// The first of the six slices among the nine lists.
const SLICES: usize = 3;

pub fn at(numbers: &Numbers, place: usize) -> u64 {
    numbers[place % 4096]
}

pub fn head(numbers: &Numbers) -> JobHead {
    JobHead {
        n: at(numbers, 0),
        mark: at(numbers, 1),
        limit: at(numbers, 2),
    }
}

pub fn right(numbers: &Numbers) -> Answer {
    Answer {
        number: at(numbers, RIGHT),
        place: at(numbers, RIGHT + 1),
        count: at(numbers, RIGHT + 2),
    }
}

// Tests whether the lent slices must keep what they held.
pub fn kept(numbers: &Numbers) -> bool {
    at(numbers, KEPT) == 1
}

fn size(numbers: &Numbers, place: usize) -> usize {
    (at(numbers, place) % 1000000) as usize
}

// How many numbers a list has.
pub fn count(numbers: &Numbers, list: usize) -> usize {
    size(numbers, add(COUNTS, list))
}

// The length of a lent slice.
pub fn lent(numbers: &Numbers, slice: usize) -> usize {
    size(numbers, add(LENGTHS, slice))
}

// The list that holds the result in a lent slice.
pub fn result(slice: usize) -> usize {
    add(SLICES, slice)
}

// Where a list begins.
pub fn first(numbers: &Numbers, list: usize) -> usize {
    (0..list).map(|k| count(numbers, k)).fold(LISTS, add)
}

// A number with one more digit behind it.
fn followed(number: u64, digit: u8) -> u64 {
    number.wrapping_mul(10).wrapping_add(u64::from(digit % 16))
}

// How many bytes follow the five digits and the space with which a line begins.
fn length(head: &[u8; 6]) -> usize
    ensures { result ≤ 8192 }
{
    let number = head
        .iter()
        .take(5)
        .fold(0, |number, digit| followed(number, *digit));
    (number % 8193) as usize
}

// Reads the numbers of a text in which each number ends with a space or a newline.
fn decode(text: &[u8], numbers: &mut Numbers) {
    let mut place = 0usize;
    let mut number = 0;
    for byte in text {
        if *byte <= b' ' {
            numbers[place % 4096] = number;
            place = place.wrapping_add(1);
            number = 0;
        } else {
            number = followed(number, *byte);
        }
    }
}

// Reads the next line of the input into numbers. Answers whether there was one. By the crate io, as the output is written: std's reader
// would also assume the C library's number and text of an error.
fn next(numbers: &mut Numbers) -> bool {
    let mut head = [0u8; 6];
    if io::read_full(0, &mut head) < 6 {
        return false;
    }
    let length = length(&head);
    let mut text = [0u8; 8192];
    let text = &mut text[..length];
    io::read_full(0, text);
    decode(text, numbers);
    true
}

// Hands the numbers of each line to a trial, with how many lines came before it, but of no more than `most` lines.
pub fn each<F: FnMut(&Numbers, usize)>(most: usize, mut hold: F)
    requires { F.IsAlwaysCallable hold }
{
    let mut numbers = [0u64; 4096];
    for k in 0..most {
        if !next(&mut numbers) {
            return;
        }
        hold(&numbers, k);
    }
}
