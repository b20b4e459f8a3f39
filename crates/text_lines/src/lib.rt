// Reads a line of rows of a job text, and keeps the rows in a lent slice. It reads the line to its end or to its first bad word, so that
// bad text is found before anything else is said of the line.
#![tactic(auto)]

ghost use Rattle.std.specs.Prelude.{◌≡◌, set};
ghost use Rattle.text_lines.specs.Narrowed.{narrowed};
ghost use Rattle.text_lines.specs.Lines.{LineAsked, RowsTold, LineTold};

// A row as it is kept. A row that does not fit 32 bits exceeds every n, and so does the number that is kept for it.
fn narrow(row: u64) -> u32
    ensures { result ≡ narrowed row }
{
    u32::try_from(row).unwrap_or(u32::MAX)
}

// Keeps a row at place i, if the slice has that place. An index, as the library does not say what a slice ends as after `get_mut`.
fn keep_row(rows: &mut [u32], i: usize, row: u64)
    ensures { rows.new ≡ set rows.old i (narrowed row) }
{
    if i < rows.len() {
        rows[i] = narrow(row);
    }
}

// Reads the numbers from `at` to the end of the line, and keeps them as rows from place t on while there is room: how many, and the place
// behind the line; or None at bad text. In the loop the first `count` are read and kept, and the next starts at k.
fn read_rows(text: &[u8], at: usize, rows: &mut [u32], t: usize) -> Option<(usize, usize)>
    requires { LineAsked text.now at t }
    ensures { RowsTold text.now at t rows.old rows.new result }
{
    let mut k = at;
    let mut count = 0;
    // A while: the place moves by as many bytes as a word has.
    while k < text.len() {
        let word = text_words::read_word(text, k)?;
        keep_row(rows, t + count, word.value);
        count += 1;
        if word.ends_line {
            return Some((count, word.next));
        }
        k = word.next;
    }
    None
}

// Reads the line of rows that begins at `at`: a count, and that many rows, which it keeps from place t on while there is room. Answers how
// many, and the place behind the line; or None if that is no line of rows.
pub fn read_line(text: &[u8], at: usize, rows: &mut [u32], t: usize) -> Option<(usize, usize)>
    requires { LineAsked text.now at t }
    ensures { LineTold text.now at t rows.old rows.new result }
{
    let said = text_words::read_word(text, at)?;
    if said.ends_line {
        if said.value != 0 {
            return None;
        }
        return Some((0, said.next));
    }
    let (count, next) = read_rows(text, said.next, rows, t)?;
    if count as u64 != said.value {
        return None;
    }
    Some((count, next))
}
