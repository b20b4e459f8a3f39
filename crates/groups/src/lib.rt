// Cuts numbers into groups of seven bits: how many groups a number has, and their bytes.
#![tactic(auto)]

ghost use Rattle.std.specs.Prelude.{◌≡◌, length};
ghost use Rattle.papers.specs.Numbers.{bytes_of};
ghost use Rattle.groups.specs.Fits.{FitsGroups};
ghost use Rattle.groups.specs.InArray.{InArray};

// The bytes of a number in a little array: the first `count` of it, then zeros. An array and a count: memory is fixed, and who compares the
// bytes reads them one by one.
#[derive(Clone, Copy, Drop)]
pub struct Groups {
    pub bytes: [u8; papers::MAX_GROUPS],
    pub count: usize,
}

// Counts the groups of seven bits of x: one below 128; else its bits, known from its leading zeros, divided by seven and rounded up.
pub fn length(x: u64) -> usize
    requires { FitsGroups x }
    ensures { result ≡ length (bytes_of x) }
{
    if x < 128 {
        return 1;
    }
    let bits = 64 - x.leading_zeros();
    ((bits + 6) / 7) as usize
}

// Makes the bytes of x. In the loop the groups before count are stored, and v is what is left of x. A while: what is left of x ends it.
pub fn number(x: u64) -> Groups
    requires { FitsGroups x }
    ensures { InArray x result.bytes result.count }
{
    let mut bytes = [0u8; papers::MAX_GROUPS];
    let mut v = x;
    let mut count = 0;
    while 128 <= v {
        bytes[count] = (v % 128 + 128) as u8;
        v /= 128;
        count += 1;
    }
    bytes[count] = v as u8;
    Groups {
        bytes,
        count: count + 1,
    }
}
