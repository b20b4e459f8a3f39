// Test 17: finds the first column whose list in a plan is not R(j). It takes the columns in ascending order, so each list is compared with
// lists that were found right before.
#![tactic(auto)]

ghost use Rattle.papers.specs.Job.{column_of};
ghost use Rattle.check_marks.specs.Marked.{ListComparable, Compared};
ghost use Rattle.check_lists.specs.Lists.{ListsComparable, ListsCompared};

use lists::Lists;

// Tests whether a list is R(m + 1), if the lists of the columns before are right. Most columns have one child, and their list is mostly the
// child's rows with new pattern rows behind them: such a list is compared with the child's, and only pattern rows are marked. For any other
// list the rows of R(m + 1) are all marked.
fn is_right(
    n: usize,
    m: usize,
    list: &[u32],
    pattern: Lists,
    factor: Lists,
    work: &mut [u64],
) -> bool
    requires { ListComparable n m list.now pattern.starts.now pattern.rows.now factor.starts.now factor.rows.now work.old }
    ensures { Compared n m list.now (column_of pattern.entry.starts.now pattern.entry.rows.now) work.old work.new result }
{
    let own = pattern.column(m);
    let c = work[m + 1] as usize;
    if c == 0 {
        return check_rows::same_rows(list, own);
    }
    if work[n + c] == 0 {
        let more = linked_children::handed_on(c, factor);
        if check_rows::begins_with(list, more) {
            return check_rows::adds_own(n, m + 1, list, more.len(), own, work);
        }
    }
    check_marks::is_all_marked(n, m, list, pattern, factor, work)
}

// Finds the first column whose list is not R(j); if there is none, stores the parents. In the loop the lists of the columns up to m are
// right, and each of these columns hangs under its parent, the least row of its list.
pub fn first_wrong_list(
    n: usize,
    pattern: Lists,
    factor: Lists,
    parents: &mut [u32],
    work: &mut [u64],
) -> Option<u64>
    requires { ListsComparable n pattern.starts.now pattern.rows.now factor.starts.now factor.rows.now parents.old work.old }
    ensures { ListsCompared n (column_of pattern.entry.starts.now pattern.entry.rows.now) factor.entry.starts.now factor.entry.rows.now
        parents.old parents.new result }
{
    work.fill(0);
    for m in 0..n {
        let list = factor.column(m);
        if !is_right(n, m, list, pattern, factor, work) {
            return Some(m as u64 + 1);
        }
        let p = structure::least(list);
        parents[m] = p;
        structure::hang(n, p as usize, m + 1, work);
    }
    None
}
