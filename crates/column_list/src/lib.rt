// Makes the list R(j) of one column: joins its pattern rows with the rows that its children hand on. In work, place j holds the first child
// of column j, place n + c the sibling behind column c, and place n + n + i the mark of row i.
#![tactic(auto)]

ghost use Rattle.std.specs.Prelude.{◌≡◌};
ghost use Rattle.papers.specs.Job.{column_of};
ghost use Rattle.child_lists.specs.Buffers.{list_in_turn};
ghost use Rattle.column_list.specs.Stored.{Gatherable, Gathers, Buffered};

use child_lists::Gathered;
use lists::Lists;

// Gathers R(m + 1) in the buffers: joins the pattern rows with those that the longest child hands on, then with those of the other
// children. Rows are marked only if there are several children.
pub fn gather(
    n: usize,
    m: usize,
    pattern: Lists,
    factor: Lists,
    work: &mut [u64],
    x: &mut [u32],
    y: &mut [u32],
) -> Gathered
    requires { Gatherable n m pattern.starts.now pattern.rows.now factor.starts.now factor.rows.now work.old x.old y.old }
    ensures { Gathers n m (column_of pattern.entry.starts.now pattern.entry.rows.now) work.old work.new x.new
        y.new result.turn result.len }
{
    let own = pattern.column(m);
    let c = work[m + 1] as usize;
    if c == 0 {
        joiner::copy_at(x, 0, own);
        return Gathered {
            turn: 0,
            len: own.len(),
        };
    }
    let d = linked_children::longest(n, c, factor.starts, work);
    let more = linked_children::handed_on(d, factor);
    let len = joiner::unite(own, more, x);
    if work[n + c] == 0 {
        return Gathered { turn: 0, len };
    }
    child_lists::mark(n, m + 1, &x[..len], work);
    child_lists::join_children(n, m + 1, c, len, factor, work, x, y)
}

// The list that was gathered.
pub fn gathered<'a>(g: Gathered, x: &'a [u32], y: &'a [u32]) -> &'a [u32]
    requires { Buffered g.len x.now y.now }
    ensures { result.now ≡ list_in_turn g.turn g.len x.now y.now }
{
    if g.turn == 0 {
        &x[..g.len]
    } else {
        &y[..g.len]
    }
}
