// Reads the numbers of a job text, word by word: a decimal, and the byte that ends it.
#![tactic(auto)]

ghost use Rattle.std.specs.Prelude.{◌≡◌, ◌≤◌, length, take, drop};
ghost use Rattle.papers.specs.Text.{is_decimal_number};
ghost use Rattle.text_words.specs.Words.{DigitsAt, DigitsFound, WordRead};

// A number of a text, and the place behind the byte that ends it: a newline, which ends the line too, or a space.
#[derive(Clone, Copy, Debug, PartialEq, Eq)]
pub struct Word {
    pub value: u64,
    pub next: usize,
    pub ends_line: bool,
}

// Reads the digits from `at` on, up to the first byte that is none, at most 13: how many, and their value. In the loop the first i bytes
// are digits, of this value.
fn read_digits(text: &[u8], at: usize) -> (usize, u64)
    requires { at ≤ length text.now }
    ensures { DigitsFound text.now at result.0 result.1 }
{
    let most = (text.len() - at).min(program_sizes::MAX_DIGITS);
    let mut value = 0;
    for (i, b) in text[at..at + most].iter().enumerate() {
        if !b.is_ascii_digit() {
            return (i, value);
        }
        value = 10 * value + u64::from(*b - b'0');
    }
    (most, value)
}

// Tests whether digits are a decimal: there is at least one, and no 0 before others.
fn is_decimal(text: &[u8], at: usize, count: usize) -> bool
    requires { DigitsAt text.now at count }
    ensures { result ≡ is_decimal_number (take count (drop at text.now)) }
{
    if count == 0 {
        return false;
    }
    if count == 1 {
        return true;
    }
    text[at] != b'0'
}

// Reads the number at `at`; the byte behind its digits decides.
pub fn read_word(text: &[u8], at: usize) -> Option<Word>
    requires { at ≤ length text.now }
    ensures { WordRead text.now at result }
{
    let (count, value) = read_digits(text, at);
    let end = at + count;
    if text.len() <= end {
        return None;
    }
    if !is_decimal(text, at, count) {
        return None;
    }
    match text[end] {
        b' ' => Some(Word {
            value,
            next: end + 1,
            ends_line: false,
        }),
        b'\n' => Some(Word {
            value,
            next: end + 1,
            ends_line: true,
        }),
        _ => None,
    }
}
