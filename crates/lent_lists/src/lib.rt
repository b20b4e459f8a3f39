// Makes the lists of the columns in the lent slices.
#![tactic(auto)]

ghost use Rattle.papers.specs.Job.{column_of};
ghost use Rattle.lent.specs.Six.{six_slices};
ghost use Rattle.lent_lists.specs.Listing.{ListableIn, Listing};

use lists::Lists;

// Writes the lists of the columns to the start of the slices, as far as they fit, and answers how many columns are done. Order and pops
// serve as the joiner's buffers here. If all columns are done, clears what is behind the lists, and behind the first n places of order and
// pops.
pub fn list_columns(
    n: usize,
    pattern: Lists,
    parents: &mut [u32],
    order: &mut [u32],
    pops: &mut [u32],
    fstarts: &mut [u64],
    frows: &mut [u32],
    work: &mut [u64],
) -> usize
    requires { ListableIn n pattern.starts.now pattern.rows.now (six_slices parents.old order.old pops.old fstarts.old frows.old work.old) }
    ensures { Listing n result (column_of pattern.entry.starts.now pattern.entry.rows.now)
        (six_slices parents.old order.old pops.old fstarts.old frows.old
        work.old)
        (six_slices parents.new order.new pops.new fstarts.new frows.new
        work.new) }
{
    let done = structure::column_lists(
        n,
        pattern,
        parents,
        fstarts,
        frows,
        &mut order[..n],
        &mut pops[..n],
        work,
    );
    if done < n {
        return done;
    }
    let last = fstarts[n] as usize;
    parents[n..].fill(0);
    order[n..].fill(0);
    pops[n..].fill(0);
    fstarts[n + 1..].fill(0);
    frows[last..].fill(0);
    done
}
