// Reads a number from any bytes, group by group, or finds what is wrong with it.
#![tactic(auto)]

ghost use Rattle.std.specs.Prelude.{◌≡◌};
ghost use Rattle.papers.specs.Numbers.{number_read_from};

use papers::NumberFault;

// Reads the number that starts at `at`, and answers its value and the place behind it. In the loop low is the value of the groups before i,
// w the weight of the next, and k says how many may still come.
pub fn read_number(s: &[u8], at: usize) -> Result<(u64, usize), NumberFault>
    ensures { result ≡ number_read_from s.now at }
{
    let mut low: u64 = 0;
    let mut w: u64 = 1;
    let mut k = papers::MAX_GROUPS;
    // By index: `at` may lie behind the end, where no part of s begins.
    for i in at..s.len() {
        if k == 0 {
            return Err(NumberFault::TooLong);
        }
        let b = u64::from(s[i]);
        if b < 128 {
            if b == 0 && at < i {
                return Err(NumberFault::NotShortest);
            }
            return Ok((low + w * b, i + 1));
        }
        low += w * (b - 128);
        w *= 128;
        k -= 1;
    }
    Err(NumberFault::Ended)
}
