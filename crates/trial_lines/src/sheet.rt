// Lists as a call takes them, and lent slices: what they hold before a call, and what they must hold after it.
use super::line;
use super::line::{Numbers, at};
use trial_elimination::grid::add;

pub type Words = [u32; 512];

pub type Longs = [u64; 1152];

pub type Bytes = [u8; 4096];

// What every place holds before a call.
pub const BEFORE: u32 = 7;

// The numbers of a list, each narrowed. A list of more than N numbers goes on at the first place.
fn list<T: Copy, const N: usize, F: Fn(u64) -> T>(
    numbers: &Numbers,
    list: usize,
    narrow: F,
) -> [T; N]
    requires { F.IsAlwaysCallable narrow }
{
    let mut out = [narrow(0); N];
    let first = line::first(numbers, list);
    for i in 0..line::count(numbers, list) {
        if let Some(place) = i.checked_rem(N) {
            out[place] = narrow(at(numbers, add(first, i)));
        }
    }
    out
}

// Three uses of it, one for each width.
pub fn longs(numbers: &Numbers, part: usize) -> Longs {
    list(numbers, part, |x| x)
}

pub fn words(numbers: &Numbers, part: usize) -> Words {
    list(numbers, part, |x| (x % 4294967296) as u32)
}

pub fn bytes(numbers: &Numbers, part: usize) -> Bytes {
    list(numbers, part, |x| (x % 256) as u8)
}

// What a place of a slice must hold if there is no result at it: what it held before if the case says that slices keep that, else 0.
fn rest(numbers: &Numbers) -> u64 {
    if line::kept(numbers) {
        return u64::from(BEFORE);
    }
    0
}

// What a place of a slice must hold: behind its lent length what it held before, within it the result from `first` on, and then the
// rest.
fn after(numbers: &Numbers, slice: usize, first: usize, i: usize) -> u64 {
    if line::lent(numbers, slice) <= i {
        return u64::from(BEFORE);
    }
    if i < line::count(numbers, line::result(slice)) {
        return at(numbers, add(first, i));
    }
    rest(numbers)
}

// Counts the places of a slice that do not hold what they must; looks at four places behind its lent length as well. A length beyond the
// slice goes on at the first place.
pub fn wrong<T: Copy + Into<u64>>(found: &[T], numbers: &Numbers, slice: usize) -> usize {
    let first = line::first(numbers, line::result(slice));
    found
        .iter()
        .cycle()
        .take(add(line::lent(numbers, slice), 4))
        .enumerate()
        .filter(|&(i, x)| (*x).into() != after(numbers, slice, first, i))
        .count()
}
