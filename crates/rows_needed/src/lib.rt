// Counts the factor rows exactly, without storing a list. In work, place c holds the mark of column c, place n + r the first column filed
// under row r, place n + n + c the next column under the same row as c, and place n + n + n + c the place of c's next pattern row.
#![tactic(auto)]

ghost use Rattle.std.specs.Prelude.{◌≡◌, ◌+◌, length, get_or};
ghost use Rattle.papers.specs.Lists.{flat};
ghost use Rattle.papers.specs.Job.{column_of};
ghost use Rattle.papers.specs.Fill.{R};
ghost use Rattle.papers.specs.Key.{lists_of};
ghost use Rattle.rows_needed.specs.Buckets.{filed};
ghost use Rattle.rows_needed.specs.Walk.{Filing, Walk, Fileable, FirstFiled, RowsCountable};

use lists::Lists;

// Files column c under its next pattern row, which is at place q, if it has one.
pub fn file(n: usize, c: usize, q: u64, pattern: Lists, work: &mut [u64])
    requires { Filing n c q pattern.starts.now pattern.rows.now work.old }
    ensures { work.new ≡ filed n c q pattern.entry.starts.now pattern.entry.rows.now work.old }
{
    work[n + n + n + c] = q;
    if q < pattern.starts[c] {
        let r = pattern.rows[q as usize] as usize;
        work[n + n + c] = work[n + r];
        work[n + r] = c as u64;
    }
}

// Does all columns whose next pattern row is i: climbs from each, and files it under its row after i. Answers the count with those of row
// i. A while: the columns are linked.
pub fn walk(
    n: usize,
    i: usize,
    count: u64,
    pattern: Lists,
    parents: &mut [u32],
    work: &mut [u64],
) -> u64
    requires { Walk n i pattern.starts.now pattern.rows.now parents.old work.old count (get_or work.old (n + i) 0) }
    ensures { Walk n i pattern.entry.starts.now pattern.entry.rows.now parents.new work.new result 0 }
{
    let mut c = work[n + i] as usize;
    let mut t = count;
    while c != 0 {
        let next = work[n + n + c] as usize;
        t = needed_climb::climb(i, c, t, parents, work);
        let q = work[n + n + n + c] + 1;
        file(n, c, q, pattern, work);
        c = next;
    }
    t
}

// Clears work and files every column under its first pattern row.
pub fn begin(n: usize, pattern: Lists, work: &mut [u64])
    requires { Fileable n pattern.starts.now pattern.rows.now work.old }
    ensures { FirstFiled n n pattern.entry.starts.now pattern.entry.rows.now work.new }
{
    work.fill(0);
    for m in 0..n {
        file(n, m + 1, pattern.starts[m], pattern, work);
    }
}

// Counts the rows of all lists R(j) together. Takes the rows one by one: a column has row i exactly when climbing from a column whose
// pattern has row i reaches it.
pub fn rows_needed(n: usize, pattern: Lists, parents: &mut [u32], work: &mut [u64]) -> u64
    requires { RowsCountable n pattern.starts.now pattern.rows.now parents.old work.old }
    ensures { result ≡ length (flat (lists_of n (R (column_of pattern.entry.starts.now pattern.entry.rows.now)))) }
{
    parents.fill(0);
    begin(n, pattern, work);
    let mut t = 0;
    for m in 0..n {
        work[m + 1] = (m + 1) as u64;
        t = walk(n, m + 1, t, pattern, parents, work);
    }
    t
}
