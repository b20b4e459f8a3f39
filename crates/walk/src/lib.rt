// Walks over the tree: one task does a column, one does a list of siblings, and each calls the other; the count of columns left falls.
// The siblings' task hands the largest child back for the column's task to do, so the calls nest no deeper than columns can be halved.
#![tactic(auto)]

ghost use Rattle.std.specs.Prelude.{◌≡◌, length};
ghost use Rattle.std.proofs.lemmas.List.Edits.{sets};
ghost use Rattle.walk.specs.Tasks.{Asked, Task, own_steps, kids_steps};
ghost use Rattle.walk.specs.Children.{ChildListed, ChildBlock, BlockHanded};

// A column, the count of its subtree's columns, and the first step of that block.
#[derive(Clone, Copy, Drop)]
pub struct Block {
    pub column: usize,
    pub size: usize,
    pub at: usize,
}

// Answers the block of the child at place i of the lists, which begins at step `at`.
fn child_block(list: &[u32], counts: &[u64], i: usize, at: usize) -> Block
    requires { ChildListed list.now counts.now i }
    ensures { ChildBlock list.now counts.now i at result.column result.size result.at }
{
    let column = list[i] as usize;
    let size = counts[column] as usize + 1;
    Block { column, size, at }
}

// Writes the steps of j's subtree, `left` of them, from `at` on: j last, before it those of its children, and the same for the child that
// the siblings' task hands back. A block of one is a leaf, which has no children to ask for.
#[cycle(column_siblings)]
pub fn column(
    starts: &[u64],
    list: &[u32],
    counts: &[u64],
    j: usize,
    left: usize,
    order: &mut [u32],
    at: usize,
)
    requires { Task starts.now list.now counts.now j left at (length order.old) (own_steps starts.now list.now j) }
    ensures { order.new ≡ sets order.old at (own_steps starts.now list.now j) }
{
    let mut b = Block {
        column: j,
        size: left,
        at,
    };
    // A while: each turn goes down to the child that is handed back.
    while 1 < b.size {
        order[b.at + b.size - 1] = b.column as u32;
        b = siblings(starts, list, counts, b.column, b.size - 1, order, b.at);
    }
    let leaf = b.at;
    order[leaf] = b.column as u32;
}

// Writes the steps of j's children, `left` of them, from `at` on, except those of the largest child, whose block it hands back. It keeps
// the largest child so far, at first the first one. It does a child that is no larger at once; a larger child takes the place of the one
// kept.
#[cycle(column_siblings)]
pub fn siblings(
    starts: &[u64],
    list: &[u32],
    counts: &[u64],
    j: usize,
    left: usize,
    order: &mut [u32],
    at: usize,
) -> Block
    requires { Task starts.now list.now counts.now j left at (length order.old) (kids_steps starts.now list.now j) }
    ensures { BlockHanded starts.now list.now counts.now j left
        order.old at order.new result.column result.size result.at }
{
    let first = starts[j] as usize;
    let mut kept = child_block(list, counts, first, at);
    // an only child has all the steps
    if kept.size == left {
        return kept;
    }
    let end = at + left;
    let mut a = at + kept.size;
    let mut i = first + 1;
    // A while: a moves by as many steps as the block has that is done.
    while a < end {
        let child = child_block(list, counts, i, a);
        if child.size <= kept.size {
            column(
                starts,
                list,
                counts,
                child.column,
                child.size,
                order,
                child.at,
            );
            a += child.size;
            i += 1;
        } else {
            column(starts, list, counts, kept.column, kept.size, order, kept.at);
            kept = child;
            a += child.size;
            i += 1;
        }
    }
    kept
}

// Writes the steps of all columns, `left` of them: the blocks of the roots, which are the children of 0, one behind the other.
pub fn steps(starts: &[u64], list: &[u32], counts: &[u64], left: usize, order: &mut [u32])
    requires { Asked starts.now list.now counts.now 0 left 0 (length order.old) (kids_steps starts.now list.now 0) }
    ensures { order.new ≡ sets order.old 0 (kids_steps starts.now list.now 0) }
{
    if left == 0 {
        return;
    }
    let last = siblings(starts, list, counts, 0, left, order, 0);
    column(starts, list, counts, last.column, last.size, order, last.at);
}
