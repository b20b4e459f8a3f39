// Climbs over parents within a row: if a column has the row, its parents have it too, up to the row's own column. In work, place c holds
// the mark of column c; in parents, place c - 1 holds its parent.
#![tactic(auto)]

ghost use Rattle.needed_climb.specs.Row.{Climbing, Climbed};

// Climbs from column k, which has row i, from parent to parent up to a column that is marked for row i. Marks and counts each column on the
// way: all of them have row i. A column that has no parent yet, which is written 0, gets row i as its parent. A while: it climbs over
// parents.
pub fn climb(i: usize, k: usize, count: u64, parents: &mut [u32], work: &mut [u64]) -> u64
    requires { Climbing i k parents.old work.old count }
    ensures { Climbed i k parents.old work.old count parents.new work.new result }
{
    let mut c = k;
    let mut t = count;
    while work[c] != i as u64 {
        work[c] = i as u64;
        t += 1;
        let p = parents[c - 1];
        if p == 0 {
            parents[c - 1] = i as u32;
            c = i;
        } else {
            c = p as usize;
        }
    }
    t
}
