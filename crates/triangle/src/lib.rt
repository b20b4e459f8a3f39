// Computes t(r), the entries of r rows.
#![tactic(auto)]

ghost use Rattle.std.specs.Prelude.{◌≡◌, ◌+◌, ◌≤◌};
ghost use Rattle.papers.specs.Bounds.{max_columns};
ghost use Rattle.papers.specs.Tree.{t};

// The entries of a lower triangle of this many rows. A column's update has as many rows as the column, its front one more.
pub fn entries(rows: u64) -> u64
    requires { rows ≤ max_columns + 1 }
    ensures { result ≡ t rows }
{
    rows * (rows + 1) / 2
}
