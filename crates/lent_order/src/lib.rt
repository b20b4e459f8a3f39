// Makes the order of the columns, and the pops of its steps, in the lent slices.
#![tactic(auto)]

ghost use Rattle.lent_order.specs.Ordering.{Orderable, Ordering};

// Writes the order of the columns by the mark, and the pops of its steps, to the start of their slices, from the parents and factor starts
// there. Answers the peak, and leaves work zero.
pub fn order_columns(
    mark: u64,
    n: usize,
    parents: &[u32],
    order: &mut [u32],
    pops: &mut [u32],
    fstarts: &[u64],
    work: &mut [u64],
) -> u64
    requires { Orderable mark n parents.now order.old pops.old fstarts.now work.old }
    ensures { Ordering mark n parents.now order.old pops.old fstarts.now work.old
        order.new pops.new work.new result }
{
    let needs = order::order_of(
        mark,
        &parents[..n],
        &fstarts[..n + 1],
        &mut order[..n],
        &mut pops[..n],
        work,
    );
    work.fill(0);
    needs.peak
}
