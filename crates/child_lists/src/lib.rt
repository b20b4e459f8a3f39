// Joins the rows of a column's children to its own. Children are linked in work, and a child that brings no new row is skipped. In work,
// place j holds the first child of column j, place n + c the sibling behind column c, and place n + n + i the mark of row i.
#![tactic(auto)]

ghost use Rattle.std.specs.Prelude.{◌≡◌, ◌-◌};
ghost use Rattle.papers.specs.Lists.{merge, every};
ghost use Rattle.child_lists.specs.Marks.{marked, is_marked, Markable};
ghost use Rattle.child_lists.specs.Buffers.{list_in_turn, Holds, Roomy};
ghost use Rattle.child_lists.specs.Joining.{Joining, ChildrenJoined};

use lists::Lists;

// Where a gathered list is: the first len rows of the first buffer if turn is 0, else of the second.
#[derive(Clone, Copy, Drop)]
pub struct Gathered {
    pub turn: usize,
    pub len: usize,
}

// Marks the rows of a list for column j.
pub fn mark(n: usize, j: usize, list: &[u32], work: &mut [u64])
    requires { Markable n list.now work.old }
    ensures { work.new ≡ marked n j list.now work.old }
{
    for row in list {
        work[n + n + *row as usize] = j as u64;
    }
}

// Tests whether every row of a list is marked for column j.
pub fn covered(n: usize, j: usize, list: &[u32], work: &[u64]) -> bool
    requires { Markable n list.now work.now }
    ensures { result ≡ every (is_marked n j work.now) list.now }
{
    list.iter()
        .all(|row| work[n + n + *row as usize] == j as u64)
}

// Joins more rows to the list of len rows in the buffer of this turn, and writes the result to the other buffer. Answers how many rows it
// has.
pub fn join_rows(turn: usize, len: usize, more: &[u32], x: &mut [u32], y: &mut [u32]) -> usize
    requires { Roomy turn len more.now x.old y.old }
    ensures { Holds (1 - turn) result x.new y.new
        (merge (list_in_turn turn len x.old y.old) more.now) }
{
    if turn == 0 {
        joiner::unite(&x[..len], more, y)
    } else {
        joiner::unite(&y[..len], more, x)
    }
}

// Joins the rows of the children from c on to the len rows of x. A child whose rows are all marked brings nothing and is skipped; of a
// child that is joined, the rows are marked. The two buffers take turns: each join goes from the one into the other. A while: the
// children are linked.
pub fn join_children(
    n: usize,
    j: usize,
    c: usize,
    len: usize,
    factor: Lists,
    work: &mut [u64],
    x: &mut [u32],
    y: &mut [u32],
) -> Gathered
    requires { Joining n j c len factor.starts.now factor.rows.now work.old x.old y.old }
    ensures { ChildrenJoined n j c len factor.entry.starts.now factor.entry.rows.now work.old x.old y.old result.turn
        result.len work.new x.new y.new }
{
    let mut d = c;
    let mut turn = 0;
    let mut count = len;
    while d != 0 {
        let more = linked_children::handed_on(d, factor);
        if !covered(n, j, more, work) {
            count = join_rows(turn, count, more, x, y);
            mark(n, j, more, work);
            turn = 1 - turn;
        }
        d = work[n + d] as usize;
    }
    Gathered { turn, len: count }
}
