// Writes the lines of a listing behind its header, one for each step of an order, from the slices that hold an analysis.
#![tactic(auto)]

ghost use Rattle.std.specs.Prelude.{◌∷◌, ◌+◌, ◌≤◌, length};
ghost use Rattle.papers.specs.Job.{column_of};
ghost use Rattle.papers.specs.Text.{decimal_of, printed};
ghost use Rattle.list_laws.specs.Wrote.{Wrote};
ghost use Rattle.listing_steps.specs.Steps.{lines_to, LineFits, LinesFit};

use lists::Lists;

// Writes the line of a step: its column, its pops, its room in use and the column's rows.
pub fn write_step(
    column: u64,
    pops: u64,
    room: u64,
    rows: &[u32],
    bytes: &mut [u8],
    at: usize,
) -> usize
    requires { at + length (printed (decimal_of column) (pops ∷ room ∷ rows.now)) ≤ length bytes.old }
    ensures { Wrote (printed (decimal_of column) (pops ∷ room ∷ rows.now)) bytes.old bytes.new at result }
{
    let first = listing_lines::write_decimal(column, bytes, at);
    let second = listing_lines::write_number(pops, bytes, first);
    let third = listing_lines::write_number(room, bytes, second);
    let end = listing_lines::write_rows(rows, bytes, third);
    bytes[end] = b'\n';
    end + 1
}

// Writes the line of a step of column j, with the column's rows from the factor. Lists count their columns from 0.
fn write_column(j: usize, pops: u64, room: u64, factor: Lists, bytes: &mut [u8], at: usize) -> usize
    requires { LineFits j pops room factor.starts.now factor.rows.now bytes.old at }
    ensures { Wrote (printed (decimal_of j) (pops ∷ room ∷ column_of factor.entry.starts.now factor.entry.rows.now j))
        bytes.old bytes.new at result }
{
    write_step(j as u64, pops, room, factor.column(j - 1), bytes, at)
}

// Writes the lines of all steps, and answers the place behind them. In the loop the lines of the first k steps are written, up to next;
// `depth` updates are held after these steps, and below holds the sums of their entries. By index: so a loop that begins a step late, which
// an edit tries, is refused for that step.
pub fn write_steps(
    order: &[u32],
    pops: &[u32],
    factor: Lists,
    below: &mut [u64],
    bytes: &mut [u8],
    at: usize,
) -> usize
    requires { LinesFit order.now pops.now factor.starts.now factor.rows.now below.old bytes.old at }
    ensures { Wrote (lines_to order.now pops.now factor.entry.starts.now factor.entry.rows.now (length order.now))
        bytes.old bytes.new at result }
{
    below[0] = 0;
    let mut depth = 0;
    let mut next = at;
    for k in 0..order.len() {
        let j = order[k] as usize;
        let p = pops[k] as usize;
        let rows = room::rows_of(factor.starts, j);
        let used = room::in_use(&below[..], depth, p, rows);
        next = write_column(j, p as u64, used, factor, bytes, next);
        depth = room::hold(below, depth, p, rows);
    }
    next
}
