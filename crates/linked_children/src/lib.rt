// A column's children, linked in work: the rows that each hands on, and the child with the most rows. In work, place j holds the first
// child of column j, and place n + c the sibling behind column c.
#![tactic(auto)]

ghost use Rattle.std.specs.Prelude.{◌≡◌};
ghost use Rattle.linked_children.specs.Children.{StoredChild, handed_rows, Linked, Longest};

use lists::Lists;

// The rows that column c hands on to its parent: its list without the least row, which is the parent. Cut
// from all rows at once: a part of `factor.column(c - 1)` costs a few instructions more for each child.
pub fn handed_on<'r>(c: usize, factor: Lists<'_, 'r>) -> &'r [u32]
    requires { StoredChild c factor.starts.now factor.rows.now }
    ensures { result.now ≡ handed_rows factor.entry.starts.now factor.entry.rows.now c }
{
    let s = factor.starts[c - 1] as usize;
    let e = factor.starts[c] as usize;
    &factor.rows[s + 1..e]
}

// Finds the child with the most rows of those linked from c on. In the loop none of those before d has more rows than best. A while: the
// children are linked. It needs no rows, so it takes the starts alone.
pub fn longest(n: usize, c: usize, fstarts: &[u64], work: &[u64]) -> usize
    requires { Linked n c fstarts.now work.now }
    ensures { Longest n c fstarts.now work.now result }
{
    let mut best = c;
    let mut most = 0;
    let mut d = c;
    while d != 0 {
        let rows = fstarts[d] - fstarts[d - 1];
        if most < rows {
            best = d;
            most = rows;
        }
        d = work[n + d] as usize;
    }
    best
}
