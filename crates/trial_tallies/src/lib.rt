// Counts what a test program finds over its cases. Prints a case with anything wrong at once, and what is counted at the end. Only this is
// proved: every function is safe and ends: places wrap, so no function asks anything of its caller.
#![tactic(auto)]

use std::fmt;
use std::fmt::Write;

// The standard output. The crate io writes to it, and assumes no more of the C library than its `write`; std's own printing would also
// assume its number and its text of an error.
#[derive(Drop)]
pub struct Output;

impl Write for Output {
    fn write_str(&mut self, text: &str) -> fmt::Result {
        if io::write_all(1, text.as_bytes()) {
            return Ok(());
        }
        Err(fmt::Error)
    }
}

// A case with anything wrong: how many cases there were up to it, its number, how much is wrong, and two numbers that name it.
#[derive(Clone, Copy, Drop)]
struct Mismatch {
    case: u64,
    number: u64,
    wrong: usize,
    a: u64,
    b: u64,
}

impl fmt::Display for Mismatch {
    fn fmt<W: fmt::Write>(&self, f: &mut fmt::Formatter<W>) -> fmt::Result {
        let Mismatch {
            case,
            number,
            wrong,
            a,
            b,
        } = *self;
        write!(f, "mismatch {case} {number} {wrong} {a} {b}")
    }
}

// Counts all cases, by their number those with nothing wrong, and those with anything wrong. The notes are what else a program counts.
#[derive(Clone, Copy, Drop)]
pub struct Tally<N> {
    cases: u64,
    right: [u64; 32],
    wrong: u64,
    pub notes: N,
}

impl<N> Tally<N> {
    pub fn new(notes: N) -> Tally<N> {
        Tally {
            cases: 0,
            right: [0; 32],
            wrong: 0,
            notes,
        }
    }

    // How many cases there are.
    pub fn cases(&self) -> u64 {
        self.cases
    }

    // How many cases have this number and nothing wrong.
    pub fn right(&self, number: usize) -> u64 {
        self.right[number % 32]
    }

    // How many cases have anything wrong.
    pub fn wrong(&self) -> u64 {
        self.wrong
    }

    // Counts something wrong that has no case.
    pub fn count_wrong(&mut self) {
        self.wrong = self.wrong.saturating_add(1);
    }

    // Counts a case, by its number if nothing of it is wrong. Prints the first twenty with anything wrong, each at once: so what was found
    // is told also if the program is cut off. A program goes on if the output takes nothing.
    pub fn tell(&mut self, number: u64, wrong: usize, a: u64, b: u64) {
        self.cases = self.cases.saturating_add(1);
        if wrong == 0 {
            let right = &mut self.right[(number % 32) as usize];
            *right = right.saturating_add(1);
            return;
        }
        self.count_wrong();
        if self.wrong <= 20 {
            let mismatch = Mismatch {
                case: self.cases,
                number,
                wrong,
                a,
                b,
            };
            let mut out = Output;
            let _ = writeln!(out, "{mismatch}");
        }
    }

    // Prints all that is counted: how many cases there are, how many of these numbers, and how many mismatches.
    pub fn print(&self, word: &str, numbers: &[usize]) -> fmt::Result {
        let mut out = Output;
        writeln!(out, "cases {}", self.cases)?;
        self.print_numbers(&mut out, word, numbers)?;
        writeln!(out, "mismatches {}", self.wrong)
    }

    // Prints how many cases have each of these numbers and nothing wrong, each in a line of its own that begins with a word.
    pub fn print_numbers(&self, out: &mut Output, word: &str, numbers: &[usize]) -> fmt::Result {
        for number in numbers {
            writeln!(out, "{word} {number}: {}", self.right(*number))?;
        }
        Ok(())
    }
}
