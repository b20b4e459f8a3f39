// Reads a plan from any bytes: its steps, its lists and its peak, or the first number at fault.
#![tactic(auto)]

ghost use Rattle.std.specs.Prelude.{◌≡◌, ◌≤◌, length};
ghost use Rattle.papers.specs.Lists.{flat};
ghost use Rattle.papers.specs.Key.{lists_read_from};
ghost use Rattle.papers.specs.Plan.{step_read_from, steps_read_from, plan_read_from};
ghost use Rattle.read_fields.specs.Reading.{Told};
ghost use Rattle.read_plan.specs.Plans.{StepAsked, StepsAsked, ListsAsked, PlanAsked};
ghost use Rattle.read_plan.specs.Plans.{StepKept, StepsKept, ListsKept, ToldPlace, peak_read_from, PeakTold, PlanTold};

use refusals::{Fault, Refusal};

// What is found in a plan that was read to its end: the declared peak, and how many rows its lists have.
#[derive(Clone, Copy, Drop)]
pub struct PlanFound {
    pub peak: u64,
    pub rows: u64,
}

// Reads step i, a column from 1 to n and pops from 0 to n - 1. Keeps both, and answers the place behind them.
fn read_step(
    plan: &[u8],
    at: usize,
    n: u64,
    i: usize,
    order: &mut [u32],
    pops: &mut [u32],
) -> Result<usize, Fault>
    requires { StepAsked plan.now at n i order.old pops.old }
    ensures { ToldPlace (StepKept i order.old order.new pops.old pops.new) (step_read_from n plan.now at) result }
{
    let (column, middle) = read_fields::read_field(plan, at, 1, n)?;
    let (popped, next) = read_fields::read_field(plan, middle, 0, n - 1)?;
    order[i] = column as u32;
    pops[i] = popped as u32;
    Ok(next)
}

// Reads the n steps from `at` on. Keeps their columns and pops, and answers the place behind them. In the loop the first i are kept, and
// the next starts at k.
fn read_steps(
    plan: &[u8],
    at: usize,
    n: u64,
    order: &mut [u32],
    pops: &mut [u32],
) -> Result<usize, Fault>
    requires { StepsAsked plan.now at n order.old pops.old }
    ensures { ToldPlace (StepsKept order.old order.new pops.old pops.new) (steps_read_from n n plan.now at) result }
{
    let mut k = at;
    for i in 0..n as usize {
        k = read_step(plan, k, n, i, order, pops)?;
    }
    Ok(k)
}

// Reads the lists of all columns from `at` on. Keeps where each starts, and the rows while there is room; answers how many rows there are,
// and the place behind the lists. In the loop the lists of the columns before j are done, with `total` rows, and the next starts at k.
pub fn read_lists(
    plan: &[u8],
    at: usize,
    n: u64,
    starts: &mut [u64],
    rows: &mut [u32],
) -> Result<(u64, usize), Fault>
    requires { ListsAsked plan.now at n starts.old }
    ensures { Told (λ lists. length (flat lists)) (ListsKept starts.old starts.new rows.old rows.new)
        (lists_read_from n 1 n plan.now at) result }
{
    let mut k = at;
    let mut total: u64 = 0;
    starts[0] = 0;
    for j in 1..=n {
        let (kept, next) = read_lists::read_list(plan, k, n, j, total as usize, rows)?;
        starts[j as usize] = kept;
        total = kept;
        k = next;
    }
    Ok((total, k))
}

// Reads the declared peak that starts at `at`, with nothing after it.
fn read_peak(plan: &[u8], at: usize) -> Result<u64, Fault>
    requires { at ≤ length plan.now }
    ensures { PeakTold (peak_read_from plan.now at) result }
{
    let (peak, next) = read_fields::read_long(plan, at, 0, papers::MAX_PEAK)?;
    if next < plan.len() {
        return read_fields::fault_at(Refusal::BytesFollow, next);
    }
    Ok(peak)
}

// Reads the plan behind a key that ends at `at`, to the end of the bytes. Keeps its steps, where its lists start and, while there is room,
// their rows.
pub fn read_plan(
    n: u64,
    plan: &[u8],
    at: usize,
    order: &mut [u32],
    pops: &mut [u32],
    starts: &mut [u64],
    rows: &mut [u32],
) -> Result<PlanFound, Fault>
    requires { PlanAsked n plan.now at order.old pops.old starts.old }
    ensures { PlanTold (plan_read_from n plan.now at) order.old order.new pops.old pops.new
        starts.old starts.new rows.old rows.new result }
{
    let behind = read_steps(plan, at, n, order, pops)?;
    let (total, next) = read_lists(plan, behind, n, starts, rows)?;
    let peak = read_peak(plan, next)?;
    Ok(PlanFound { peak, rows: total })
}
