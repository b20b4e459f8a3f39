// Writes the gaps of a run of rows into a lent slice, as far as the slice goes: all low bytes at once if each gap has one byte, else one by
// one. A run is all rows and two places in them: with a slice for each run, whose end `min` found, keys took two fifths
// longer.
#![tactic(auto)]

ghost use Rattle.std.specs.Prelude.{◌^◌};
ghost use Rattle.std.proofs.Math.Seq.{slice};
ghost use Rattle.papers.specs.Numbers.{encode};
ghost use Rattle.papers.specs.Key.{gaps_of};
ghost use Rattle.list_laws.specs.Wrote.{Wrote};
ghost use Rattle.write_gaps.specs.ListBetween.{ListNear, ListFits};
ghost use Rattle.write_gaps.specs.LowBytes.{LowsStored};

// Stores the low byte of each gap of the rows from `from` up to `to` behind the row b, and answers the greatest gap: if that is below 128,
// these are the bytes of the gaps. In the loop the rows before i are stored, and `before` is the last of them, or b. The loop contains no
// jump.
fn low_bytes(rows: &[u32], from: usize, to: usize, b: u32, bytes: &mut [u8], at: usize) -> u32
    requires { ListFits rows.now from to b bytes.old at }
    ensures { LowsStored (gaps_of b (slice from to rows.now)) bytes.old bytes.new at result }
{
    let mut widest: u32 = 0;
    let mut before = b;
    let mut next = at;
    for i in from..to {
        let row = rows[i];
        let gap = row - before;
        bytes[next] = (gap % 256) as u8;
        widest = widest.max(gap);
        before = row;
        next += 1;
    }
    widest
}

// Writes the gaps of the rows from `from` up to `to` behind the row b, from `at` on, and answers the place behind them. In the loop the
// rows before i are written up to next, and `before` is the last of them, or b.
fn write_gaps(rows: &[u32], from: usize, to: usize, b: u32, bytes: &mut [u8], at: usize) -> usize
    requires { ListNear rows.now from to b at (2 ^ 62) }
    ensures { Wrote (encode (gaps_of b (slice from to rows.now))) bytes.old bytes.new at result }
{
    let mut next = at;
    let mut before = b;
    for i in from..to {
        let row = rows[i];
        next = write_number::put(bytes, next, u64::from(row - before));
        before = row;
    }
    next
}

// Writes gaps as write_gaps does. Most gaps have one byte: if all have, and the slice has the places, storing the low bytes is enough.
pub fn write_run(rows: &[u32], from: usize, to: usize, b: u32, bytes: &mut [u8], at: usize) -> usize
    requires { ListNear rows.now from to b at (2 ^ 62) }
    ensures { Wrote (encode (gaps_of b (slice from to rows.now))) bytes.old bytes.new at result }
{
    let end = at + (to - from);
    if bytes.len() < end {
        return write_gaps(rows, from, to, b, bytes, at);
    }
    let widest = low_bytes(rows, from, to, b, bytes, at);
    if widest < 128 {
        return end;
    }
    write_gaps(rows, from, to, b, bytes, at)
}
