// The types and bounds that code and definitions share. The rules themselves are defined in specs/.
#![tactic(auto)]

// What an entry point answers: the number of a refusal, or 0 for done; a place; a count.
#[derive(Clone, Copy, Drop)]
pub struct Answer {
    pub number: u64,
    pub place: u64,
    pub count: u64,
}

// The three numbers of a job beside its lists: its size, sibling mark and room limit.
#[derive(Clone, Copy, Drop)]
pub struct JobHead {
    pub n: u64,
    pub mark: u64,
    pub limit: u64,
}

// What is wrong with a number that is read: the bytes end inside it, or it has too many groups, or a shorter form of it exists.
#[derive(Clone, Copy, Debug, PartialEq, Eq)]
pub enum NumberFault {
    Ended,
    TooLong,
    NotShortest,
}

// The bounds of n, sibling mark, room limit and declared peak, and of the groups of a number. specs/Bounds.antt defines the same bounds.
pub const MAX_COLUMNS: u64 = 4096;

pub const MAX_MARK: u64 = 2;

pub const MAX_LIMIT: u64 = 1099511627776;

pub const MAX_PEAK: u64 = 1099511627776;

pub const MAX_GROUPS: usize = 6;

// The edition, with which keys and plans begin.
pub const EDITION: u64 = 1;
