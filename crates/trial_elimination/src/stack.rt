// The stack of updates, by the rule of the room in use.
use super::grid::add;
use super::sheet;
use super::sheet::{Sheet, get, row_count};

// The columns whose updates are held, the lowest first, and how many there are. Places wrap, so every height is allowed.
#[derive(Clone, Copy, Drop)]
pub struct Stack {
    columns: [usize; 32],
    height: usize,
}

// The entries of a lower triangle of r rows: the sum of 1 to r.
pub fn triangle(r: usize) -> usize {
    (1..=r).fold(0, add)
}

impl Stack {
    // A stack that holds nothing.
    pub fn new() -> Stack {
        Stack {
            columns: [0; 32],
            height: 0,
        }
    }

    // How many updates are held.
    pub fn height(&self) -> usize {
        self.height
    }

    // The column whose update is held at a place.
    pub fn column(&self, place: usize) -> usize {
        self.columns[place % 32]
    }

    // The entries of the lowest `height` updates.
    fn entries(&self, sheet: &Sheet, height: usize) -> usize {
        (0..height)
            .map(|k| triangle(row_count(sheet, self.column(k))))
            .fold(0, add)
    }

    // The room in use at a step that takes off `pops` updates for the front of c: all that is held before it, without the top update if it
    // takes any off, and the front.
    pub fn in_use(&self, sheet: &Sheet, c: usize, pops: usize) -> usize {
        let front = triangle(add(row_count(sheet, c), 1));
        let held = self.height.saturating_sub(pops.min(1));
        add(self.entries(sheet, held), front)
    }

    // Takes off the topmost `pops` updates and puts that of c on, unless c has no rows.
    pub fn change(&mut self, sheet: &Sheet, c: usize, pops: usize) {
        self.height = self.height.saturating_sub(pops);
        if row_count(sheet, c) != 0 {
            self.columns[self.height % 32] = c;
            self.height = add(self.height, 1);
        }
    }
}

// The greatest room in use of any step of the subtree of j, or of all steps if j is 0. A step pops as many updates as its column has
// children.
pub fn peak(sheet: &Sheet, j: usize) -> usize {
    let mut stack = Stack::new();
    let mut greatest = 0usize;
    for k in 0..get(sheet, sheet::SIZES, j) {
        let c = get(sheet, sheet::subtree(j), k);
        let pops = sheet::children(sheet, c);
        greatest = greatest.max(stack.in_use(sheet, c, pops));
        stack.change(sheet, c, pops);
    }
    greatest
}
