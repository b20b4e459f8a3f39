// Makes the lists R(j) of all columns, one behind the other, and the parents. In work, place j holds the first child of column j, and place
// n + c the sibling behind column c.
#![tactic(auto)]

ghost use Rattle.std.specs.Prelude.{◌≡◌};
ghost use Rattle.papers.specs.Lists.{head0};
ghost use Rattle.papers.specs.Job.{column_of};
ghost use Rattle.structure.specs.Hanging.{hanging, Hangable};
ghost use Rattle.structure.specs.Listed.{Storable, Stores, Listable, ColumnsListed};

use lists::Lists;

// Hangs column c under its parent p, before the children that p has already. A root, whose parent is written 0 as in a plan, is not hung.
pub fn hang(n: usize, p: usize, c: usize, work: &mut [u64])
    requires { Hangable n p c work.old }
    ensures { work.new ≡ hanging n p c work.old }
{
    if p == 0 {
        return;
    }
    work[n + c] = work[p];
    work[p] = c as u64;
}

// Stores a list as that of column m + 1: its rows, where they end, and its least row as the parent, and hangs the column under this parent.
pub fn store(
    n: usize,
    m: usize,
    list: &[u32],
    parents: &mut [u32],
    fstarts: &mut [u64],
    frows: &mut [u32],
    work: &mut [u64],
)
    requires { Storable n m list.now parents.old fstarts.old frows.old work.old }
    ensures { Stores n m list.now parents.old fstarts.old frows.old work.old
        parents.new fstarts.new frows.new work.new }
{
    let at = fstarts[m] as usize;
    joiner::copy_at(frows, at, list);
    fstarts[m + 1] = (at + list.len()) as u64;
    let p = least(list);
    parents[m] = p;
    hang(n, p as usize, m + 1, work);
}

// The least row of a list, which is its first; 0 if the list is empty, as a plan writes the parent of a root.
pub fn least(list: &[u32]) -> u32
    ensures { result ≡ head0 list.now }
{
    list.first().copied().unwrap_or(0)
}

// Makes the lists R(1), R(2), .., their starts and the parents, as long as the lists fit into frows. Answers how many columns are done.
pub fn column_lists(
    n: usize,
    pattern: Lists,
    parents: &mut [u32],
    fstarts: &mut [u64],
    frows: &mut [u32],
    x: &mut [u32],
    y: &mut [u32],
    work: &mut [u64],
) -> usize
    requires { Listable n pattern.starts.now pattern.rows.now parents.old fstarts.old x.old y.old work.old }
    ensures { ColumnsListed n result (column_of pattern.entry.starts.now pattern.entry.rows.now) parents.old fstarts.old
        frows.old parents.new fstarts.new frows.new }
{
    work.fill(0);
    fstarts[0] = 0;
    for m in 0..n {
        let factor = Lists {
            starts: fstarts,
            rows: frows,
        };
        let g = column_list::gather(n, m, pattern, factor, work, x, y);
        if frows.len() - (fstarts[m] as usize) < g.len {
            return m;
        }
        store(
            n,
            m,
            column_list::gathered(g, x, y),
            parents,
            fstarts,
            frows,
            work,
        );
    }
    n
}
