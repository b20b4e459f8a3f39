// Reads line 1 of a job text: n, the limit, and perhaps a mark. Each function answers the numbers of a job and the place behind the line,
// or None at bad text.
#![tactic(auto)]

ghost use Rattle.std.specs.Prelude.{[], ◌∷◌, ◌≤◌, length};
ghost use Rattle.text_head.specs.Heads.{HeadTold};

use papers::JobHead;

// Reads the end of line 1, behind n and limit: the mark.
fn read_mark(text: &[u8], at: usize, n: u64, limit: u64) -> Option<(JobHead, usize)>
    requires { at ≤ length text.now }
    ensures { HeadTold text.now (n ∷ limit ∷ []) at result }
{
    let word = text_words::read_word(text, at)?;
    if !word.ends_line {
        return None;
    }
    let mark = word.value;
    Some((JobHead { n, mark, limit }, word.next))
}

// Reads the rest of line 1, behind n: the limit, and perhaps a mark.
fn read_limit(text: &[u8], at: usize, n: u64) -> Option<(JobHead, usize)>
    requires { at ≤ length text.now }
    ensures { HeadTold text.now (n ∷ []) at result }
{
    let word = text_words::read_word(text, at)?;
    let limit = word.value;
    if word.ends_line {
        let mark = program_sizes::DEFAULT_MARK;
        return Some((JobHead { n, mark, limit }, word.next));
    }
    read_mark(text, word.next, n, limit)
}

// Reads line 1.
pub fn read_head(text: &[u8]) -> Option<(JobHead, usize)>
    ensures { HeadTold text.now [] 0 result }
{
    let word = text_words::read_word(text, 0)?;
    if word.ends_line {
        return None;
    }
    read_limit(text, word.next, word.value)
}
