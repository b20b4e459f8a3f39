// Writes numbers in decimal, and the two lines of a word and three numbers that the listing program prints: the header, and the line of a
// refusal. Each function answers the place behind what it writes.
#![tactic(auto)]

ghost use Rattle.std.specs.Prelude.{◌+◌, ◌≤◌, ◌∷◌, [], length};
ghost use Rattle.papers.specs.Text.{decimal_of, space, printed, word_plan, refusal_line};
ghost use Rattle.list_laws.specs.Wrote.{Wrote};
ghost use Rattle.listing_lines.specs.Numbered.{numbered};

use papers::Answer;

// Writes x in decimal: the digits of its tenth, if that is not 0, then its last digit. By hand, under a contract on `decimal_of`.
pub fn write_decimal(x: u64, bytes: &mut [u8], at: usize) -> usize
    requires { at + length (decimal_of x) ≤ length bytes.old }
    ensures { Wrote (decimal_of x) bytes.old bytes.new at result }
{
    if x < 10 {
        bytes[at] = b'0' + x as u8;
        return at + 1;
    }
    let last = write_decimal(x / 10, bytes, at);
    bytes[last] = b'0' + (x % 10) as u8;
    last + 1
}

// Writes a number behind the first word of a line: a space, then x in decimal.
pub fn write_number(x: u64, bytes: &mut [u8], at: usize) -> usize
    requires { at + length (space ∷ decimal_of x) ≤ length bytes.old }
    ensures { Wrote (space ∷ decimal_of x) bytes.old bytes.new at result }
{
    bytes[at] = b' ';
    write_decimal(x, bytes, at + 1)
}

// Writes the numbers of a slice, each behind a space. In the loop those before the row are written, up to next.
pub fn write_rows(rows: &[u32], bytes: &mut [u8], at: usize) -> usize
    requires { at + length (numbered rows.now) ≤ length bytes.old }
    ensures { Wrote (numbered rows.now) bytes.old bytes.new at result }
{
    let mut next = at;
    for row in rows {
        next = write_number(u64::from(*row), bytes, next);
    }
    next
}

// Writes a word of letters.
fn write_word(word: &[u8], bytes: &mut [u8], at: usize) -> usize
    requires { at + length word.now ≤ length bytes.old }
    ensures { Wrote word.now bytes.old bytes.new at result }
{
    let end = at + word.len();
    bytes[at..end].copy_from_slice(word);
    end
}

// Writes a line of a word and three numbers to the start of a slice.
fn write_line(word: &[u8], a: u64, b: u64, c: u64, bytes: &mut [u8]) -> usize
    requires { length (printed word.now (a ∷ b ∷ c ∷ [])) ≤ length bytes.old }
    ensures { Wrote (printed word.now (a ∷ b ∷ c ∷ [])) bytes.old bytes.new 0 result }
{
    let first = write_word(word, bytes, 0);
    let second = write_number(a, bytes, first);
    let third = write_number(b, bytes, second);
    let end = write_number(c, bytes, third);
    bytes[end] = b'\n';
    end + 1
}

// Writes the header of a listing: `plan`, n, the mark and the peak.
pub fn write_header(n: u64, mark: u64, peak: u64, bytes: &mut [u8]) -> usize
    requires { length (printed word_plan (n ∷ mark ∷ peak ∷ [])) ≤ length bytes.old }
    ensures { Wrote (printed word_plan (n ∷ mark ∷ peak ∷ [])) bytes.old bytes.new 0 result }
{
    write_line(b"plan", n, mark, peak, bytes)
}

// Writes the line of a refusal: `refused`, its number, place and count.
pub fn write_refusal(answer: Answer, bytes: &mut [u8]) -> usize
    requires { length (refusal_line answer) ≤ length bytes.old }
    ensures { Wrote (refusal_line answer) bytes.old bytes.new 0 result }
{
    write_line(b"refused", answer.number, answer.place, answer.count, bytes)
}
