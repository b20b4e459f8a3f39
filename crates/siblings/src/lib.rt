// Arranges siblings by the mark: sorts each list by its keys, in its place, and stores the W of each column.
#![tactic(auto)]

ghost use Rattle.std.specs.Prelude.{length};
ghost use Rattle.siblings.specs.Arranged.{Sortable, SiblingsSorted, SiblingsPlaced, SiblingsArranged, Arrangeable, AllArranged};

// Sorts the children of column j by the mark and stores the W of j: computes the keys, sorts, and computes W from the sorted children.
fn sort_kids(
    mark: u64,
    factor: &[u64],
    kids: &mut [u32],
    scratch: &mut [u32],
    work: &mut [u64],
    j: usize,
    w: usize,
    k: usize,
)
    requires { Sortable factor.now kids.old work.old (length scratch.old) j w k }
    ensures { SiblingsSorted mark factor.now kids.old work.old kids.new work.new j w k }
{
    sibling_keys::store_keys(mark, factor, kids, j, work, w, k);
    sibling_sort::sort_columns(&work[k..], kids, scratch);
    work[w + j] = sibling_keys::room_alone(factor, &work[w..k], kids, j);
}

// Arranges the children of column j in their place in the lists, and stores the W of j.
fn arrange_at(
    mark: u64,
    factor: &[u64],
    list: &mut [u32],
    scratch: &mut [u32],
    work: &mut [u64],
    j: usize,
    w: usize,
    k: usize,
)
    requires { SiblingsPlaced factor.now list.old work.old (length scratch.old) j w k }
    ensures { SiblingsArranged mark factor.now list.old work.old list.new work.new j w k }
{
    let a = work[j] as usize;
    let e = work[j + 1] as usize;
    sort_kids(mark, factor, &mut list[a..e], scratch, work, j, w, k);
}

// Arranges the children of every column in their places, columns ascending, so that a child's W is known when its parent's children are
// sorted. Mark 0 leaves them as they are, ascending.
pub fn arrange(
    mark: u64,
    factor: &[u64],
    list: &mut [u32],
    scratch: &mut [u32],
    work: &mut [u64],
    w: usize,
    k: usize,
)
    requires { Arrangeable mark factor.now list.old work.old (length scratch.old) w k }
    ensures { AllArranged mark factor.now list.old work.old list.new work.new w }
{
    if mark == 0 {
        return;
    }
    for j in 1..list.len() + 1 {
        arrange_at(mark, factor, list, scratch, work, j, w, k);
    }
}
