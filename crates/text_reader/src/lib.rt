// Reads a job text into lent slices: its length, line 1 and the lines of rows; the first line at fault gives 25 or 26.
#![tactic(auto)]

ghost use Rattle.std.specs.Prelude.{◌<◌, length};
ghost use Rattle.papers.specs.Bounds.{program_columns};
ghost use Rattle.text_reader.specs.Reading.{JobTold};

use papers::JobHead;
use refusals::{Fault, Refusal};

// Reads the job of a text: stores its starts and rows at the start of the lent slices, and answers its numbers and how many rows it has.
// `more` says whether the text continues behind what is lent.
pub fn read_job(
    text: &[u8],
    more: bool,
    starts: &mut [u64],
    rows: &mut [u32],
) -> Result<(JobHead, usize), Fault>
    requires { program_columns < length starts.old }
    ensures { JobTold (record { text = text.now; more = more }) starts.old rows.old starts.new
        rows.new result }
{
    if more || program_sizes::INPUT_BYTES < text.len() {
        return Err(text_rows::fault_at_line(Refusal::OverProgramSizes, 0));
    }
    let bad_head = text_rows::fault_at_line(Refusal::BadText, 1);
    let (head, next) = text_head::read_head(text).ok_or(bad_head)?;
    if (program_sizes::COLUMNS as u64) < head.n {
        return Err(text_rows::fault_at_line(Refusal::OverProgramSizes, 1));
    }
    let count = text_rows::read_lines(text, next, head.n, starts, rows)?;
    Ok((head, count))
}
