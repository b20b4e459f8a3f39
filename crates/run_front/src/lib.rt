// Finds a column's rows in a factor, and tests whether an update's rows are in a column's front.
#![tactic(auto)]

ghost use Rattle.std.specs.Prelude.{◌≡◌, ◌∷◌, length};
ghost use Rattle.papers.specs.Lists.{member, every};
ghost use Rattle.papers.specs.Job.{column_of};
ghost use Rattle.papers.specs.Tree.{t};
ghost use Rattle.run_front.specs.Column.{ColumnIn};
ghost use Rattle.run_front.specs.Search.{Bracket, Sought, BothAscend, Alike};

// A factor as code hands it on: its number of columns, and its starts and rows, which stay where they were lent. Two lifetimes, as in
// `Lists`.
#[derive(Clone, Copy)]
pub struct Factor<'s, 'r> {
    pub n: u64,
    pub starts: &'s [u64],
    pub rows: &'r [u32],
}

// The rows of a column, as a part of the factor's rows.
pub fn rows_of<'r>(factor: Factor<'_, 'r>, column: u64) -> &'r [u32]
    requires { ColumnIn factor.n factor.starts.now factor.rows.now column }
    ensures { result.now ≡ column_of factor.entry.starts.now factor.entry.rows.now column }
{
    let c = column as usize;
    let from = factor.starts[c - 1] as usize;
    let end = factor.starts[c] as usize;
    &factor.rows[from..end]
}

// The number of entries of a column's update.
pub fn entries_of(factor: Factor, column: u64) -> u64
    requires { ColumnIn factor.n factor.starts.now factor.rows.now column }
    ensures { result ≡ t (length (column_of factor.entry.starts.now factor.entry.rows.now column)) }
{
    triangle::entries(rows_of(factor, column).len() as u64)
}

// The place of a row among ascending rows, known to be from lo to hi. Each turn halves the range. By hand: with `partition_point` a run
// over lists that hardly meet takes a quarter longer.
fn bisect(rows: &[u32], row: u32, lo: usize, hi: usize) -> usize
    requires { Sought rows.now row lo hi }
    ensures { Bracket rows.now row result result }
{
    let mut low = lo;
    let mut high = hi;
    while low < high {
        let middle = low + (high - low) / 2;
        if rows[middle] < row {
            low = middle + 1;
        } else {
            high = middle;
        }
    }
    low
}

// The place of a row among ascending rows: the first that is not below it. All rows before `from` are below it. The search looks ever
// further behind `from`, so its cost depends on how far the place is, not on how many rows there are. A while: each look is twice as far.
fn seek(rows: &[u32], row: u32, from: usize) -> usize
    requires { Sought rows.now row from (length rows.now) }
    ensures { Bracket rows.now row result result }
{
    let mut low = from;
    let mut look = from;
    while look < rows.len() {
        if row <= rows[look] {
            return bisect(rows, row, low, look);
        }
        low = look + 1;
        look = low + (low - from);
    }
    bisect(rows, row, low, rows.len())
}

// Counts how many first rows two lists have in common. In the loop the first i agree.
fn alike(a: &[u32], b: &[u32]) -> usize
    ensures { Alike a.now b.now result }
{
    let end = a.len().min(b.len());
    for i in 0..end {
        if a[i] != b[i] {
            return i;
        }
    }
    end
}

// Tests whether each row of an update is the column itself or one of its rows. Both lists ascend, so each row is searched behind the last
// one found. Mostly the next rows follow in both lists: these are passed without a search. A while: the place moves by as many rows as
// agree.
pub fn stands_in(column: u64, rows: &[u32], update: &[u32]) -> bool
    requires { BothAscend rows.now update.now }
    ensures { result ≡ every (λ i. member i (column ∷ rows.now)) update.now }
{
    let mut found = 0;
    let mut i = 0;
    while i < update.len() {
        let row = update[i];
        if u64::from(row) == column {
            i += 1;
        } else {
            let place = seek(rows, row, found);
            let same = alike(&rows[place..], &update[i..]);
            if same == 0 {
                return false;
            }
            found = place + same;
            i += same;
        }
    }
    true
}
