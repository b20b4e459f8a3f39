// Tests of a list of rows: whether it equals another, whether it begins with another, and whether the rest of it is the pattern rows. In
// work, place n + n + i holds the mark of row i.
#![tactic(auto)]

ghost use Rattle.std.specs.Prelude.{◌≡◌, true, length};
ghost use Rattle.papers.specs.Lists.{keep, same};
ghost use Rattle.child_lists.specs.Marks.{is_marked, Markable};
ghost use Rattle.check_rows.specs.Added.{Begins, Addable, Adds};

// Tests whether two lists are equal. The library's test of slices compares many rows at once.
pub fn same_rows(a: &[u32], b: &[u32]) -> bool
    ensures { result ≡ same a.now b.now }
{
    a == b
}

// Tests whether a list begins with the rows of another.
pub fn begins_with(list: &[u32], more: &[u32]) -> bool
    ensures { result ≡ true → Begins list.now more.now }
{
    list.starts_with(more)
}

// Counts the rows of a list that are marked for column j. In the loop `count` of the rows before are.
fn count_marked(n: usize, j: usize, list: &[u32], work: &[u64]) -> usize
    requires { Markable n list.now work.now }
    ensures { result ≡ length (keep (is_marked n j work.now) list.now) }
{
    let mut count = 0;
    for row in list {
        if work[n + n + *row as usize] == j as u64 {
            count += 1;
        }
    }
    count
}

// Tests whether a list, of which the first p rows are known, contains the pattern rows too, and behind place p nothing else. Marks the
// pattern rows.
pub fn adds_own(n: usize, j: usize, list: &[u32], p: usize, own: &[u32], work: &mut [u64]) -> bool
    requires { Addable n list.now p own.now work.old }
    ensures { Adds n j list.now p own.now work.old work.new result }
{
    child_lists::mark(n, j, own, work);
    if count_marked(n, j, list, work) != own.len() {
        return false;
    }
    child_lists::covered(n, j, &list[p..], work)
}
