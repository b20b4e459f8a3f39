// Compares numbers and lists with a plan's bytes: makes the bytes of each number and compares them with the plan's. Each comparison answers
// the place behind what it compared, or the first byte, counted from 1, that differs or that the plan lacks, as refusal 11.
#![tactic(auto)]

ghost use Rattle.std.specs.Prelude.{◌≡◌, [], ◌∷◌};
ghost use Rattle.std.proofs.Math.Seq.{slice};
ghost use Rattle.papers.specs.Job.{column_of};
ghost use Rattle.papers.specs.Numbers.{bytes_of, encode};
ghost use Rattle.papers.specs.Key.{gaps_of, list_numbers, lists_numbers, lists_of};
ghost use Rattle.check_numbers.specs.Asked.{NumberMatchAsked, TwoMatchAsked, ListMatchAsked, ListsMatchAsked};
ghost use Rattle.check_numbers.specs.Matches.{match_from};

use lists::Lists;
use refusals::{Fault, Refusal};

// Compares the bytes of x with the plan's from `at` on. In the loop the first i bytes agree.
fn match_groups(plan: &[u8], at: usize, x: u64) -> Result<usize, Fault>
    requires { NumberMatchAsked plan.now at x }
    ensures { result ≡ match_from (bytes_of x) plan.now at }
{
    let groups = groups::number(x);
    let bytes = groups.bytes;
    for i in 0..groups.count {
        let k = at + i;
        if plan.len() <= k || plan[k] != bytes[i] {
            return Err(Fault {
                refusal: Refusal::NotTheKey,
                place: k as u64 + 1,
            });
        }
    }
    Ok(at + groups.count)
}

// The same. Most numbers have one group, which is compared without the little array.
fn match_number(plan: &[u8], at: usize, x: u64) -> Result<usize, Fault>
    requires { NumberMatchAsked plan.now at x }
    ensures { result ≡ match_from (bytes_of x) plan.now at }
{
    if x < 128 && at < plan.len() && u64::from(plan[at]) == x {
        return Ok(at + 1);
    }
    match_groups(plan, at, x)
}

// Compares two numbers, one behind the other.
pub fn match_two(plan: &[u8], at: usize, x: u64, y: u64) -> Result<usize, Fault>
    requires { TwoMatchAsked plan.now at x y }
    ensures { result ≡ match_from (encode (x ∷ y ∷ [])) plan.now at }
{
    let next = match_number(plan, at, x)?;
    match_number(plan, next, y)
}

// Compares the gaps of the rows of column j, those at the places `from` up to `to`. In the loop the gaps before i agree, up to k; `before`
// is the last of these rows, or j. Rows and two places, as write_gaps takes them.
fn match_gaps(
    plan: &[u8],
    at: usize,
    rows: &[u32],
    from: usize,
    to: usize,
    j: u64,
) -> Result<usize, Fault>
    requires { ListMatchAsked plan.now at rows.now from to j }
    ensures { result ≡ match_from (encode (gaps_of j (slice from to rows.now))) plan.now at }
{
    let mut k = at;
    let mut before = j;
    for i in from..to {
        let row = u64::from(rows[i]);
        k = match_number(plan, k, row - before)?;
        before = row;
    }
    Ok(k)
}

// Compares the list of column j, its count and its gaps; rows and two places again.
fn match_list(
    plan: &[u8],
    at: usize,
    rows: &[u32],
    from: usize,
    to: usize,
    j: u64,
) -> Result<usize, Fault>
    requires { ListMatchAsked plan.now at rows.now from to j }
    ensures { result ≡ match_from (encode (list_numbers j (slice from to rows.now))) plan.now at }
{
    let next = match_number(plan, at, (to - from) as u64)?;
    match_gaps(plan, next, rows, from, to, j)
}

// Compares the lists of the columns 1 to n. In the loop those of the columns before c agree, up to k; c counts the columns from 0.
pub fn match_lists(n: u64, lists: Lists, plan: &[u8], at: usize) -> Result<usize, Fault>
    requires { ListsMatchAsked n lists.starts.now lists.rows.now plan.now at }
    ensures { result ≡ match_from (encode (lists_numbers 1 (lists_of n (column_of lists.entry.starts.now lists.entry.rows.now))))
        plan.now at }
{
    let mut k = at;
    for c in 0..n as usize {
        k = match_list(
            plan,
            k,
            lists.rows,
            lists.starts[c] as usize,
            lists.starts[c + 1] as usize,
            c as u64 + 1,
        )?;
    }
    Ok(k)
}
