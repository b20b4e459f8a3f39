// Writes the lists of columns into a lent slice, for keys and plans: of each its count and the gaps between its rows, as far as the slice
// goes.
#![tactic(auto)]

ghost use Rattle.std.specs.Prelude.{◌^◌, ◌<◌};
ghost use Rattle.std.proofs.Math.Seq.{slice};
ghost use Rattle.papers.specs.Job.{column_of};
ghost use Rattle.papers.specs.Numbers.{encode};
ghost use Rattle.papers.specs.Key.{list_numbers, lists_numbers, lists_of};
ghost use Rattle.list_laws.specs.Wrote.{Wrote};
ghost use Rattle.write_gaps.specs.ListBetween.{ListNear};
ghost use Rattle.write_lists.specs.Lists.{RunEnd, ListsNear};

use lists::Lists;

// How many rows of a list are written in one go.
const RUN: usize = 16;

// The end of the run that begins at place i of a list that ends at `to`.
fn run_end(i: usize, to: usize) -> usize
    requires { i < to }
    ensures { RunEnd i to result }
{
    if to - i < RUN {
        return to;
    }
    i + RUN
}

// Writes the list of column j, its count and its gaps, from `at` on, and answers the place behind it. In the loop the rows before i are
// written up to next, and `before` is the last of them, or j. A while: the place moves by as many rows as the run has. Rows and two
// places, as write_gaps takes them.
fn write_list(rows: &[u32], from: usize, to: usize, j: u32, bytes: &mut [u8], at: usize) -> usize
    requires { ListNear rows.now from to j at (2 ^ 61) }
    ensures { Wrote (encode (list_numbers j (slice from to rows.now))) bytes.old bytes.new at result }
{
    let mut next = write_number::put(bytes, at, (to - from) as u64);
    let mut before = j;
    let mut i = from;
    while i < to {
        let end = run_end(i, to);
        next = write_gaps::write_run(rows, i, end, before, bytes, next);
        before = rows[end - 1];
        i = end;
    }
    next
}

// Writes the lists of the columns 1 to n from `at` on, and answers the place behind them. In the loop those of the first `done` columns are
// written up to next.
pub fn write_lists(n: u64, lists: Lists, bytes: &mut [u8], at: usize) -> usize
    requires { ListsNear n lists.starts.now lists.rows.now at }
    ensures { Wrote (encode (lists_numbers 1 (lists_of n (column_of lists.entry.starts.now lists.entry.rows.now))))
        bytes.old bytes.new at result }
{
    let mut next = at;
    for done in 0..n as usize {
        next = write_list(
            lists.rows,
            lists.starts[done] as usize,
            lists.starts[done + 1] as usize,
            done as u32 + 1,
            bytes,
            next,
        );
    }
    next
}
