// Test 18: finds the first step whose column's subtree does not take consecutive steps that end there. A subtree of w columns whose top is
// done at step s must take the w steps that end at s. It does exactly when every column under its top is done in that window, and comparing
// child with parent shows this: a column strays if it is done after its parent, or if its own window begins before its parent's. The answer
// is the least step of a parent from which a child strays: before that step all is well.
#![tactic(auto)]

ghost use Rattle.std.specs.Prelude.{◌≡◌, ◌+◌, length};
ghost use Rattle.papers.specs.Lists.{least};
ghost use Rattle.papers.specs.Order.{scattered};
ghost use Rattle.refusals.specs.Answers.{place_if_any};
ghost use Rattle.tree.specs.Parents.{parent_in};
ghost use Rattle.check_subtrees.specs.Steps.{number_for, StepOfEach, StepsWritable, OrderGiven};
ghost use Rattle.check_subtrees.specs.Strays.{stray_step_of, lesser_step, earliest, Placed, PlacedAt};

// Writes the step of each column. In the loop the first k steps are written.
fn write_steps(order: &[u32], steps: &mut [u64])
    requires { StepsWritable order.now steps.old }
    ensures { StepOfEach order.now steps.new }
{
    for (k, column) in order.iter().enumerate() {
        steps[*column as usize] = k as u64 + 1;
    }
}

// Answers the step of the parent of the column at place i, if the column strays from it. Its window begins at own less its count of
// descendants, its parent's at top less the parent's count; the counts change sides, so that no difference falls below 0.
fn stray_step(parents: &[u32], steps: &[u64], below: &[u64], i: usize) -> Option<u64>
    requires { PlacedAt parents.now steps.now below.now i }
    ensures { result ≡ place_if_any (stray_step_of (parent_in parents.now) (number_for steps.now) (number_for below.now) (i + 1)) }
{
    let p = parents[i] as usize;
    if p == 0 {
        return None;
    }
    let top = steps[p];
    let own = steps[i + 1];
    if own <= top && top + below[i + 1] <= own + below[p] {
        return None;
    }
    Some(top)
}

// The lesser of two steps, either of which may be missing.
fn lesser_step(a: Option<u64>, b: Option<u64>) -> Option<u64>
    ensures { result ≡ lesser_step a b }
{
    match (a, b) {
        (Some(x), Some(y)) => Some(x.min(y)),
        (Some(_), None) => a,
        (None, _) => b,
    }
}

// Finds the least step of a parent from which a child strays. In the loop the first i columns are judged.
fn first_stray(parents: &[u32], steps: &[u64], below: &[u64]) -> Option<u64>
    requires { Placed parents.now steps.now below.now }
    ensures { result ≡ place_if_any
        (earliest (stray_step_of (parent_in parents.now) (number_for steps.now) (number_for below.now)) (length parents.now)) }
{
    let mut first = None;
    for i in 0..parents.len() {
        first = lesser_step(first, stray_step(parents, steps, below, i));
    }
    first
}

// Finds the first step whose column's subtree is scattered. work holds the steps of the columns, and behind them the counts of their
// descendants.
pub fn first_scattered(parents: &[u32], order: &[u32], work: &mut [u64]) -> Option<u64>
    requires { OrderGiven parents.now order.now work.old }
    ensures { result ≡ place_if_any (least (scattered (parent_in parents.now) (length parents.now) order.now) (length parents.now)) }
{
    let m = parents.len() + 1;
    let e = m + m;
    write_steps(order, &mut work[..m]);
    tree::count_descendants(parents, &mut work[m..e]);
    let listed = &work[..];
    first_stray(parents, &listed[..m], &listed[m..e])
}
