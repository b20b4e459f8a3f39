// Reads the rows of a column in one go, if each gap has one group or two, as nearly all have. Leaves any other list to the reader of lists.
#![tactic(auto)]

ghost use Rattle.read_rows.specs.Rows.{ShortAsked, RowsAsked, MostShort, ShortRead, QuickRead};

// How many gaps of one byte can be read and kept without testing for an end: no more than those left, the bytes that follow, and the room
// behind place t.
fn most_short(left: usize, bytes: usize, t: usize, room: usize) -> usize
    ensures { MostShort left bytes t room result }
{
    left.min(bytes).min(room.saturating_sub(t))
}

// Reads the rows behind row b whose gaps have one group, up to the first gap that is 0 or longer, or for which there is no room. Keeps them
// from place t on, and answers how many they are, and the last of them, or b. Most rows are read here. In the loop the first i of `left`
// are kept, and `last` is the last of them, or b. Rows only rise, so if the last is in its range, all are.
fn short_rows(plan: &[u8], at: usize, b: u64, left: u64, t: usize, rows: &mut [u32]) -> (usize, u64)
    requires { ShortAsked plan.now at b left }
    ensures { ShortRead plan.now b left at t rows.old rows.new result.0 result.1 }
{
    let most = most_short(left as usize, plan.len() - at, t, rows.len());
    let mut last = b;
    for (i, byte) in plan[at..at + most].iter().enumerate() {
        let gap = u64::from(*byte);
        if gap == 0 || 127 < gap {
            return (i, last);
        }
        last += gap;
        rows[t + i] = last as u32;
    }
    (most, last)
}

// Reads the rows of column j as read_rows does, if each gap has one group or two and there is room for all, and answers the place behind
// them. What it has kept of any other list is where read_rows will keep its own rows. All calls in the loop are put in line, so its
// counters stay in registers.
pub fn quick_rows(
    plan: &[u8],
    at: usize,
    n: u64,
    j: u64,
    count: u64,
    t: usize,
    rows: &mut [u32],
) -> Option<usize>
    requires { RowsAsked plan.now at n j count t }
    ensures { QuickRead n plan.now j count at t rows.old rows.new result }
{
    let mut k = at;
    let mut row = j;
    let mut rest = count;
    let mut total = t;
    // A while: each turn reads as many rows as have short gaps, and one more.
    while 0 < rest {
        let (read, last) = short_rows(plan, k, row, rest, total, rows);
        if n < last {
            return None;
        }
        row = last;
        k += read;
        total += read;
        rest -= read as u64;
        if rest == 0 {
            break;
        }
        let gap = read_fields::two_groups(plan, k)?;
        if n - row < gap || rows.len() <= total {
            return None;
        }
        row += gap;
        rows[total] = row as u32;
        total += 1;
        k += 2;
        rest -= 1;
    }
    Some(k)
}
