// Ends a writing: decides between 10 and done for bytes that were written from the start of a slice as far as it goes, and clears the rest
// or all of the slice.
#![tactic(auto)]

ghost use Rattle.std.specs.Prelude.{List, ℕ};
ghost use Rattle.papers.specs.Refusals.{EndsAs};
ghost use Rattle.refusals.specs.Answers.{answer_from};
ghost use Rattle.list_laws.specs.Wrote.{Wrote};
ghost use Rattle.write_stored.specs.Stored.{stored};

use refusals::{Refusal, Refused, refuse};

// Refuses with 10 and the bytes needed, and clears the slice, if the bytes do not fit; else counts them, and clears what is behind them.
pub fn finish(bytes: &mut [u8], needed: usize) -> Result<u64, Refused>
    ensures { (written before : List ℕ) → Wrote written before bytes.old 0 needed
        → EndsAs (answer_from result) bytes.new (stored written before) }
{
    if bytes.len() < needed {
        bytes.fill(0);
        return refuse(Refusal::BytesDoNotFit, 0, needed as u64);
    }
    bytes[needed..].fill(0);
    Ok(needed as u64)
}
