// Hands on a part of a lent slice.
#![tactic(auto)]

ghost use Rattle.std.specs.Prelude.{◌≡◌, take};

// The first count bytes of a slice: a written key or plan is handed on so. A count past the end gives the whole slice.
pub fn part(bytes: &[u8], count: usize) -> &[u8]
    ensures { result.now ≡ take count bytes.now }
{
    &bytes[..count.min(bytes.len())]
}
