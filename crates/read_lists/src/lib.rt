// Reads the list of a column from any bytes. Counts a row even if there is no room for it.
#![tactic(auto)]

ghost use Rattle.std.specs.Prelude.{◌≡◌, ◌+◌, ◌^◌, ◌<◌, length, set};
ghost use Rattle.papers.specs.Key.{rows_read_from, list_read_from};
ghost use Rattle.read_fields.specs.Reading.{Told};
ghost use Rattle.read_rows.specs.Rows.{ListAsked};
ghost use Rattle.read_lists.specs.Lists.{RowsKept};

use refusals::Fault;

// Keeps a row at place i, if the slice has that place. Tests the place itself, since the library says nothing of what a slice holds after
// get_mut.
fn keep_row(rows: &mut [u32], i: usize, row: u64)
    requires { row < 2 ^ 32 }
    ensures { rows.new ≡ set rows.old i row }
{
    if i < rows.len() {
        rows[i] = row as u32;
    }
}

// Reads `count` rows of column j by their gaps, from `at` on. Keeps them from place t on while there is room, and answers the place behind
// them, kept or not, and the place in the plan. In the loop the rows before place `total` are read, `row` is the last of them, or j, and
// the next starts at k.
fn read_rows(
    plan: &[u8],
    at: usize,
    n: u64,
    j: u64,
    count: u64,
    t: usize,
    rows: &mut [u32],
) -> Result<(u64, usize), Fault>
    requires { ListAsked plan.now at n j t }
    ensures { Told (λ list. t + length list) (RowsKept t rows.old rows.new) (rows_read_from n j count plan.now at) result }
{
    let mut k = at;
    let mut row = j;
    let mut total = t;
    for _i in 0..count {
        let (gap, next) = read_fields::read_field(plan, k, 1, n - row)?;
        row += gap;
        keep_row(rows, total, row);
        total += 1;
        k = next;
    }
    Ok((total as u64, k))
}

// Reads the list of column j, its count and its gaps; keeps and answers as read_rows does.
pub fn read_list(
    plan: &[u8],
    at: usize,
    n: u64,
    j: u64,
    t: usize,
    rows: &mut [u32],
) -> Result<(u64, usize), Fault>
    requires { ListAsked plan.now at n j t }
    ensures { Told (λ list. t + length list) (RowsKept t rows.old rows.new) (list_read_from n j plan.now at) result }
{
    let (count, next) = read_fields::read_field(plan, at, 0, n - j)?;
    if let Some(behind) = read_rows::quick_rows(plan, next, n, j, count, t, rows) {
        return Ok((t as u64 + count, behind));
    }
    read_rows(plan, next, n, j, count, t, rows)
}
