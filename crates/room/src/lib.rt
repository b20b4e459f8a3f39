// Computes pops, room in use and the peak of an order.
#![tactic(auto)]

ghost use Rattle.std.specs.Prelude.{◌≡◌, map, ◌+◌, ◌-◌, min, length, get_or};
ghost use Rattle.papers.specs.Lists.{up_to};
ghost use Rattle.papers.specs.Tree.{t};
ghost use Rattle.papers.specs.Room.{peak_of};
ghost use Rattle.room.specs.Rows.{row_count_at, RisesAt, ColumnStarts, RowsCounted};
ghost use Rattle.room.specs.Steps.{rows_at, pops_of_step, UpdatesSummed, StepDone, PeakGiven, PopsGiven};

// The number of rows of column j.
pub fn rows_of(factor: &[u64], j: usize) -> u64
    requires { ColumnStarts factor.now j }
    ensures { RowsCounted factor.now j result }
{
    factor[j] - factor[j - 1]
}

// The length of the list from start i to the next one.
fn count_at(starts: &[u64], i: usize) -> u64
    requires { RisesAt starts.now i }
    ensures { result ≡ row_count_at starts.now i }
{
    starts[i + 1] - starts[i]
}

// Writes the pops of each step: the number of its column's children, from the starts of their lists. In the loop the first k steps are
// counted.
pub fn count_pops(starts: &[u64], order: &[u32], pops: &mut [u32])
    requires { PopsGiven starts.now order.now pops.old }
    ensures { pops.new ≡ map (row_count_at starts.now) order.now }
{
    for (k, column) in order.iter().enumerate() {
        pops[k] = count_at(starts, *column as usize) as u32;
    }
}

// The room in use at a step with these pops and rows. below[d] is the sum of the entries of the lowest d of the updates held, so a front
// over the top update begins at below[depth - 1].
pub fn in_use(below: &[u64], depth: usize, pops: usize, rows: u64) -> u64
    requires { UpdatesSummed below.now depth pops rows }
    ensures { result ≡ get_or below.now (depth - min pops 1) 0 + t (rows + 1) }
{
    below[depth - pops.min(1)] + triangle::entries(rows + 1)
}

// Does the step: its pops come off and its update goes on, in one store; a root puts none on. Answers how many updates are held afterwards.
pub fn hold(below: &mut [u64], depth: usize, pops: usize, rows: u64) -> usize
    requires { UpdatesSummed below.old depth pops rows }
    ensures { StepDone below.old depth pops rows below.new result }
{
    let left = depth - pops;
    below[left + 1] = below[left] + triangle::entries(rows);
    left + rows.min(1) as usize
}

// What the steps of an order need: the peak, which is the greatest room in use.
#[derive(Clone, Copy, Drop)]
pub struct Needs {
    pub peak: u64,
}

// What all steps need, each with its column's rows and its pops. In the loop the steps that came are done: depth updates are held.
pub fn peak(factor: &[u64], order: &[u32], pops: &[u32], below: &mut [u64]) -> Needs
    requires { PeakGiven factor.now order.now pops.now below.old }
    ensures { result.peak ≡ peak_of (rows_at factor.now order.now) (pops_of_step pops.now)
        (up_to (length order.now)) }
{
    below[0] = 0;
    let mut depth = 0;
    let mut most: u64 = 0;
    for (column, popped) in order.iter().zip(pops) {
        let p = *popped as usize;
        let rows = rows_of(factor, *column as usize);
        most = most.max(in_use(&below[..], depth, p, rows));
        depth = hold(below, depth, p, rows);
    }
    Needs { peak: most }
}
