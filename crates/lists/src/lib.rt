// Lists of rows as code hands them on: those of a job's pattern, or those of a factor.
#![tactic(auto)]

ghost use Rattle.std.specs.Prelude.{◌≡◌, ◌+◌};
ghost use Rattle.papers.specs.Job.{column_of};
ghost use Rattle.lists.specs.Between.{RowsBetween};

// The lists of all columns, one behind the other: that of column m + 1 is the rows from start m up to start m + 1, as starts count from 0.
// Two lifetimes: who keeps a column's rows may write the starts meanwhile.
#[derive(Clone, Copy)]
pub struct Lists<'s, 'r> {
    pub starts: &'s [u64],
    pub rows: &'r [u32],
}

impl<'s, 'r> Lists<'s, 'r> {
    // The rows of column m + 1.
    pub fn column(self, m: usize) -> &'r [u32]
        requires { RowsBetween m self.starts.now self.rows.now }
        ensures { result.now ≡ column_of self.entry.starts.now self.entry.rows.now (m + 1) }
    {
        let from = self.starts[m] as usize;
        let end = self.starts[m + 1] as usize;
        &self.rows[from..end]
    }
}
