// Calls the analysis once, and compares what it does with what it must do.
ghost use Rattle.std.specs.Prelude.{◌≤◌};

use papers::{Answer, JobHead};
use trial_comparison::{Held, Slices, differences, filled, wrong};
use trial_elimination::sheet;
use trial_elimination::sheet::Sheet;

// The lengths of the six lent slices: parents, order, pops, factor starts, factor rows and work.
pub type Lengths = [usize; 6];

// What a call must answer, and what the six slices must hold after it.
#[derive(Clone, Copy, Drop)]
pub struct Right {
    pub answer: Answer,
    pub held: Held,
}

fn length(lent: &Lengths, slice: usize) -> usize
    ensures { result ≤ 300 }
{
    lent[slice % 6] % 301
}

// Counts the places of the six slices that are wrong after a call. Work must be zero, like the stack list of a sheet.
fn wrong_slices(slices: &Slices<300, 300>, lent: &Lengths, held: Held, res: &Sheet) -> usize {
    let parents = wrong(&slices.parents, length(lent, 0), held, res, sheet::PARENTS);
    let order = wrong(&slices.order, length(lent, 1), held, res, sheet::COLUMNS);
    let pops = wrong(&slices.pops, length(lent, 2), held, res, sheet::POPS);
    let starts = wrong(&slices.starts, length(lent, 3), held, res, sheet::STARTS);
    let rows = wrong(&slices.rows, length(lent, 4), held, res, sheet::ROWS);
    let work = wrong(&slices.work, length(lent, 5), held, res, sheet::STACK);
    parents
        .saturating_add(order)
        .saturating_add(pops)
        .saturating_add(starts)
        .saturating_add(rows)
        .saturating_add(work)
}

// Calls the analysis and counts what is wrong, in its answer and at every place of the six slices.
pub fn wrong_in_call(
    head: JobHead,
    starts: &[u64],
    rows: &[u32],
    lent: &Lengths,
    res: &Sheet,
    right: Right,
) -> usize {
    let words = filled();
    let longs = filled();
    let mut slices = Slices {
        parents: words,
        order: words,
        pops: words,
        starts: longs,
        rows: words,
        work: longs,
    };
    let found = analysis::analyse(
        head,
        starts,
        rows,
        &mut slices.parents[..length(lent, 0)],
        &mut slices.order[..length(lent, 1)],
        &mut slices.pops[..length(lent, 2)],
        &mut slices.starts[..length(lent, 3)],
        &mut slices.rows[..length(lent, 4)],
        &mut slices.work[..length(lent, 5)],
    );
    differences(found, right.answer).saturating_add(wrong_slices(&slices, lent, right.held, res))
}
