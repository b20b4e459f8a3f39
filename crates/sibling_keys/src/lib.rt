// A column and its children: computes the keys by which siblings are sorted, and the W of the column from its children's W.
#![tactic(auto)]

ghost use Rattle.std.specs.Prelude.{◌≡◌, ◌≤◌};
ghost use Rattle.papers.specs.Bounds.{max_columns};
ghost use Rattle.papers.specs.Order.{sibling_key_of};
ghost use Rattle.list_laws.specs.Parts.{part};
ghost use Rattle.sibling_keys.specs.Kids.{key_at, need_at, Kids, Keyable, Keyed};

// The key of a child with these rows and this W, under a parent with `above` rows. Siblings go by descending key. The mark is the rules'
// own number, as keys, plans and C hold it.
fn sibling_key(mark: u64, above: u64, rows: u64, w: u64) -> u64
    requires { rows ≤ max_columns }
    ensures { result ≡ sibling_key_of mark above rows w }
{
    let update = triangle::entries(rows);
    match mark {
        0 => 0,
        1 => w.saturating_sub(update),
        _ => update,
    }
}

// Stores the key of each child of column j. work holds the W of the columns from w on, and the keys from k on. In the loop the keys of
// the kids so far are stored.
pub fn store_keys(
    mark: u64,
    factor: &[u64],
    kids: &[u32],
    j: usize,
    work: &mut [u64],
    w: usize,
    k: usize,
)
    requires { Keyable factor.now kids.now j work.old w k }
    ensures { Keyed k (key_at mark factor.now (part w k work.old) j) kids.now work.old
        work.new }
{
    let above = room::rows_of(factor, j);
    for kid in kids {
        let c = *kid as usize;
        let rows = room::rows_of(factor, c);
        work[k + c] = sibling_key(mark, above, rows, work[w + c]);
    }
}

// The W of column j, from those of its children, which are done in this order. In the loop `below` is the sum of the entries of the
// children's updates so far, and `before` the sum of all these but the last.
pub fn room_alone(factor: &[u64], rooms: &[u64], kids: &[u32], j: usize) -> u64
    requires { Kids factor.now rooms.now kids.now j }
    ensures { result ≡ need_at factor.now rooms.now kids.now j }
{
    let mut most: u64 = 0;
    let mut before = 0;
    let mut below = 0;
    for kid in kids {
        let c = *kid as usize;
        most = most.max(below + rooms[c]);
        before = below;
        below += triangle::entries(room::rows_of(factor, c));
    }
    most.max(before + triangle::entries(room::rows_of(factor, j) + 1))
}
