// The six slices lent to an analysis or a check, and the clearing of all six.
#![tactic(auto)]

ghost use Rattle.std.specs.Prelude.{◌≡◌};
ghost use Rattle.papers.specs.Analysis.{Lent, all_zero};
ghost use Rattle.lent.specs.Six.{six_slices};

// Sets all of each slice to zero. Six parameters, here and above: a struct of six `&mut` slices would have to promise, in each function
// that takes it, that each keeps its ghost name.
pub fn clear_all(
    parents: &mut [u32],
    order: &mut [u32],
    pops: &mut [u32],
    starts: &mut [u64],
    rows: &mut [u32],
    work: &mut [u64],
)
    ensures { ◌≡◌ {A = Lent} (six_slices parents.new order.new pops.new starts.new rows.new
        work.new)
        (all_zero (six_slices parents.old order.old pops.old starts.old rows.old
        work.old)) }
{
    parents.fill(0);
    order.fill(0);
    pops.fill(0);
    starts.fill(0);
    rows.fill(0);
    work.fill(0);
}
