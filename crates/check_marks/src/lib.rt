// Marks and counts the rows of R(j): its pattern rows and the rows that its children hand on, each once. So a list is compared with R(j)
// without a second set of lists. In work, place j holds the first child of column j, place n + c the sibling behind column c, and place n +
// n + i the mark of row i.
#![tactic(auto)]

ghost use Rattle.papers.specs.Job.{column_of};
ghost use Rattle.column_list.specs.Stored.{Next};
ghost use Rattle.check_marks.specs.Marked.{MarkableOnce, MarkedNew, Counted, ListComparable, Compared};

use lists::Lists;

// Marks the rows of a list for column j, and answers how many of them were not marked before. In the loop the rows before are marked,
// `count` of them newly. Each mark is stored, new or not, so that no turn waits for what was read.
fn mark_new(n: usize, j: usize, list: &[u32], work: &mut [u64]) -> usize
    requires { MarkableOnce n list.now work.old }
    ensures { MarkedNew n j list.now work.old work.new result }
{
    let mut count = 0;
    for row in list {
        let p = n + n + *row as usize;
        if work[p] != j as u64 {
            count += 1;
        }
        work[p] = j as u64;
    }
    count
}

// Marks the rows of R(m + 1), if the lists of the columns before are right: its pattern rows, and what its children hand on. Answers how
// many there are. In the loop the children from c on are left. A while: it walks their chain.
pub fn mark_column(n: usize, m: usize, pattern: Lists, factor: Lists, work: &mut [u64]) -> usize
    requires { Next n m pattern.starts.now pattern.rows.now factor.starts.now factor.rows.now work.old }
    ensures { Counted n m (column_of pattern.entry.starts.now pattern.entry.rows.now) work.old work.new result }
{
    let mut count = mark_new(n, m + 1, pattern.column(m), work);
    let mut c = work[m + 1] as usize;
    while c != 0 {
        count += mark_new(n, m + 1, linked_children::handed_on(c, factor), work);
        c = work[n + c] as usize;
    }
    count
}

// Tests whether a list is R(m + 1), if the lists of the columns before are right: it has as many rows as are marked, and each of them is
// marked.
pub fn is_all_marked(
    n: usize,
    m: usize,
    list: &[u32],
    pattern: Lists,
    factor: Lists,
    work: &mut [u64],
) -> bool
    requires { ListComparable n m list.now pattern.starts.now pattern.rows.now factor.starts.now factor.rows.now work.old }
    ensures { Compared n m list.now (column_of pattern.entry.starts.now pattern.entry.rows.now) work.old work.new result }
{
    if list.len() != mark_column(n, m, pattern, factor, work) {
        return false;
    }
    child_lists::covered(n, m + 1, list, work)
}
