// Reads the lines of rows of a job text into lent slices, and the end of the text; the first line at fault gives 25 or 26.
#![tactic(auto)]

ghost use Rattle.std.specs.Prelude.{◌≡◌};
ghost use Rattle.text_rows.specs.RowsRead.{LinesAsked, LinesTold};

use refusals::{Fault, Refusal};

// The fault that gives this refusal at a line of the text; line 0 stands for the whole text.
pub fn fault_at_line(refusal: Refusal, line: u64) -> Fault
    ensures { result ≡ record { refusal = refusal; place = line } }
{
    Fault {
        refusal,
        place: line,
    }
}

// Reads the n lines of rows from `at` on, and the end of the text: how many rows in all, or the first line at fault. In the loop the lines
// of the first j columns are read, up to k, with `total` rows.
pub fn read_lines(
    text: &[u8],
    at: usize,
    n: u64,
    starts: &mut [u64],
    rows: &mut [u32],
) -> Result<usize, Fault>
    requires { LinesAsked text.now at n starts.old }
    ensures { LinesTold text.now starts.old rows.old starts.new rows.new result }
{
    let mut total = 0;
    let mut k = at;
    starts[0] = 0;
    for j in 0..n {
        let line = j + 2;
        let bad = fault_at_line(Refusal::BadText, line);
        let (count, next) = text_lines::read_line(text, k, rows, total).ok_or(bad)?;
        total += count;
        if program_sizes::PATTERN_ROWS < total {
            return Err(fault_at_line(Refusal::OverProgramSizes, line));
        }
        k = next;
        starts[j as usize + 1] = total as u64;
    }
    if k < text.len() {
        return Err(fault_at_line(Refusal::BadText, n + 2));
    }
    Ok(total)
}
