// Tests of a plan's steps one by one: 16, no column is done twice; 19, each step pops as many updates as its column has children.
#![tactic(auto)]

ghost use Rattle.std.specs.Prelude.{◌≡◌, length};
ghost use Rattle.papers.specs.Lists.{least};
ghost use Rattle.papers.specs.Check.{repeated_at};
ghost use Rattle.refusals.specs.Answers.{place_if_any};
ghost use Rattle.check_steps.specs.Steps.{StepsMarkable, PopsComparable, pops_differ};

// Test 16: finds the first step whose column an earlier step has done. In the loop work marks the columns of the first i steps.
pub fn first_repeat(order: &[u32], work: &mut [u64]) -> Option<u64>
    requires { StepsMarkable order.now work.old }
    ensures { result ≡ place_if_any (least (repeated_at order.now) (length order.now)) }
{
    work[..order.len() + 1].fill(0);
    for (i, column) in order.iter().enumerate() {
        let j = *column as usize;
        if 0 < work[j] {
            return Some(i as u64 + 1);
        }
        work[j] = 1;
    }
    None
}

// Test 19: finds the first step whose pops are not its column's number of children. work holds the numbers of children. In the loop the
// pops of the first i steps are right.
pub fn first_wrong_pops(
    parents: &[u32],
    order: &[u32],
    pops: &[u32],
    work: &mut [u64],
) -> Option<u64>
    requires { PopsComparable parents.now order.now pops.now work.old }
    ensures { result ≡ place_if_any (least (pops_differ parents.now order.now pops.now) (length order.now)) }
{
    tree::count_children(parents, &mut work[..parents.len() + 2]);
    for (i, column) in order.iter().enumerate() {
        let j = *column as usize;
        if u64::from(pops[i]) != work[j] {
            return Some(i as u64 + 1);
        }
    }
    None
}
