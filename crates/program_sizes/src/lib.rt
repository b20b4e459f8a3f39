// The sizes of the listing program; the solver's call uses those of its buffers. The module Bounds of papers defines the same sizes.
#![tactic(auto)]

// The most bytes of a job text, the most digits of a decimal, and the sibling mark of a text that gives none.
pub const INPUT_BYTES: usize = 8192;

pub const MAX_DIGITS: usize = 13;

pub const DEFAULT_MARK: u64 = 0;

// The bytes of output; any listing fits in them.
pub const LISTING_BYTES: usize = 24576;

// The most columns, and one more: the starts of that many columns.
pub const COLUMNS: usize = 256;

pub const STARTS: usize = 257;

// The most pattern rows and factor rows.
pub const PATTERN_ROWS: usize = 2048;

pub const FACTOR_ROWS: usize = 4096;

// The numbers of work for that many columns.
pub const WORK: usize = 2056;
