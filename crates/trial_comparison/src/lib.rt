// For the test programs: lists as a call takes them, what lent slices hold before a call and must hold after it, and how much of that is
// wrong. Only this is proved: every function is safe and ends.
#![tactic(auto)]

ghost use Rattle.std.specs.Prelude.{◌≤◌};

use papers::{Answer, JobHead};
use std::array;
use trial_elimination::sheet;
use trial_elimination::sheet::Sheet;

// The six slices that an analysis or a check is lent, as arrays with places enough.
#[derive(Drop)]
pub struct Slices<const WORDS: usize, const LONGS: usize> {
    pub parents: [u32; WORDS],
    pub order: [u32; WORDS],
    pub pops: [u32; WORDS],
    pub starts: [u64; LONGS],
    pub rows: [u32; WORDS],
    pub work: [u64; LONGS],
}

// Slices of two sizes, for small patterns and for the cases that come as lines. They hold zeros.
pub const SMALL: Slices<300, 300> = Slices {
    parents: [0; 300],
    order: [0; 300],
    pops: [0; 300],
    starts: [0; 300],
    rows: [0; 300],
    work: [0; 300],
};

pub const LARGE: Slices<512, 1152> = Slices {
    parents: [0; 512],
    order: [0; 512],
    pops: [0; 512],
    starts: [0; 1152],
    rows: [0; 512],
    work: [0; 1152],
};

impl<const WORDS: usize, const LONGS: usize> Slices<WORDS, LONGS> {
    // Puts a number at every place. Works in place, since moving so many bytes is slow.
    pub fn fill(&mut self, number: u32) {
        let long = u64::from(number);
        self.parents.fill(number);
        self.order.fill(number);
        self.pops.fill(number);
        self.starts.fill(long);
        self.rows.fill(number);
        self.work.fill(long);
    }
}

// How many numbers of a part a call is handed: as many as the part has.
pub fn count(sheet: &Sheet, part: usize) -> usize
    ensures { result ≤ 300 }
{
    sheet::length(sheet, part) % 301
}

// The numbers of a part that a call is handed, each narrowed, then zeros.
fn list<T: Copy, F: Fn(usize) -> T>(sheet: &Sheet, part: usize, narrow: F) -> [T; 300]
    requires { F.IsAlwaysCallable narrow }
{
    let mut list = [narrow(0); 300];
    let numbers = sheet::part(sheet, part).iter();
    for (x, number) in list.iter_mut().zip(numbers).take(count(sheet, part)) {
        *x = narrow(*number);
    }
    list
}

// A part of a sheet as rows, columns or pops.
pub fn words(sheet: &Sheet, part: usize) -> [u32; 300] {
    list(sheet, part, |x| (x % 4294967296) as u32)
}

// A part of a sheet as starts.
pub fn longs(sheet: &Sheet, part: usize) -> [u64; 300] {
    list(sheet, part, |x| x as u64)
}

// The head of a job.
pub fn head(n: usize, mark: u64, limit: u64) -> JobHead {
    JobHead {
        n: n as u64,
        mark,
        limit,
    }
}

// What the lent slices must hold after a call, one of three: the result, then zeros; what they held before; or zeros alone.
#[derive(Clone, Copy, Drop)]
pub enum Held {
    Result,
    Before,
    Zeros,
}

// What they must hold after a call without a result.
pub fn no_result(kept: bool) -> Held {
    if kept {
        return Held::Before;
    }
    Held::Zeros
}

// What a place of a lent slice holds before a call: never 0, and never part of the result of a small pattern.
fn before(i: usize) -> u16 {
    (i % 7 + 9000) as u16
}

// A slice before a call.
pub fn filled<T: From<u16>>() -> [T; 300] {
    array::from_fn(|i| T::from(before(i)))
}

// What a place must hold after a call: behind the lent length what it held before, in front of that what the slice must hold.
fn after(held: Held, lent: usize, i: usize, res: usize) -> u64 {
    if lent <= i {
        return u64::from(before(i));
    }
    match held {
        Held::Result => res as u64,
        Held::Before => u64::from(before(i)),
        Held::Zeros => 0,
    }
}

// Counts the places of a slice that do not hold what they must after a call, up to four places behind its lent length. A part of the sheet
// holds the result, then zeros.
pub fn wrong<T: Copy + Into<u64>>(
    found: &[T; 300],
    lent: usize,
    held: Held,
    sheet: &Sheet,
    part: usize,
) -> usize {
    let results = sheet::part(sheet, part);
    (0..lent.saturating_add(4).min(300))
        .filter(|&i| found[i].into() != after(held, lent, i, results[i]))
        .count()
}

// Counts how many of number, place and count differ.
pub fn differences(a: Answer, b: Answer) -> usize {
    usize::from(a.number != b.number)
        + usize::from(a.place != b.place)
        + usize::from(a.count != b.count)
}
