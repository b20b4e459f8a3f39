// Writes a number into a lent slice, as far as the slice goes. So whoever writes numbers one behind the other learns at the end how many
// bytes they all take, and need not count before.
#![tactic(auto)]

ghost use Rattle.std.specs.Prelude.{◌≡◌, set};
ghost use Rattle.papers.specs.Numbers.{bytes_of};
ghost use Rattle.list_laws.specs.Wrote.{Wrote};
ghost use Rattle.write_number.specs.NumberAt.{NumberAt};

// Stores a byte if the slice has the place. A test and an index: what a slice holds after a write through its `get_mut` is not known.
fn put_byte(dst: &mut [u8], at: usize, b: u8)
    ensures { dst.new ≡ set dst.old at b }
{
    if at < dst.len() {
        dst[at] = b;
    }
}

// Writes the bytes of x from `at` on, those for which there is a place, and answers the place behind them all, known from the leading zeros
// of x. Most numbers have one byte or two, which are stored at once; of more, in the loop the first i of the little array are written.
// Without that array the writing of all lists took three fifths longer.
pub fn put(dst: &mut [u8], at: usize, x: u64) -> usize
    requires { NumberAt at x }
    ensures { Wrote (bytes_of x) dst.old dst.new at result }
{
    let next = at + groups::length(x);
    if x < 128 {
        put_byte(dst, at, x as u8);
        return next;
    }
    if x < 16384 {
        put_byte(dst, at, (x % 128 + 128) as u8);
        put_byte(dst, at + 1, (x / 128) as u8);
        return next;
    }
    let groups = groups::number(x);
    let bytes = groups.bytes;
    let count = groups.count;
    for i in 0..count {
        put_byte(dst, at + i, bytes[i]);
    }
    next
}
