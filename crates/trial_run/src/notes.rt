// Counts further cases, which a run could get wrong and still meet every number.
use papers::Answer;
use trial_elimination::sheet;
use trial_elimination::sheet::{Sheet, get, set};

// Done cases with a repeated column, cases refused with 22 for an update below the top, the sum of all places and of all counts.
#[derive(Clone, Copy, Drop)]
pub struct Notes {
    pub repeated: u64,
    pub deep: u64,
    pub places: u64,
    pub counts: u64,
}

// Tests whether the columns of the steps i and j, two of the first n, are the same.
fn same(case: &Sheet, i: usize, j: usize, n: usize) -> bool {
    j < i && i < n && get(case, sheet::COLUMNS, i) == get(case, sheet::COLUMNS, j)
}

// Tests whether two of the first n steps have the same column.
fn repeats(case: &Sheet, n: usize) -> bool {
    (0..256).any(|place| same(case, place % 16, place / 16, n))
}

// Tests whether a step that is refused with 22 is not refused when it pops only the top update.
fn deep(case: &mut Sheet, place: u64) -> bool {
    set(case, sheet::POPS, (place as usize).saturating_sub(1), 1);
    let answer = trial_simulation::simulate(case);
    answer.number != 22 || answer.place != place
}

impl Notes {
    pub fn new() -> Notes {
        Notes {
            repeated: 0,
            deep: 0,
            places: 0,
            counts: 0,
        }
    }

    // Counts a case and its right answer. It may change the case.
    pub fn note(&mut self, case: &mut Sheet, right: Answer) {
        self.places = self.places.saturating_add(right.place);
        self.counts = self.counts.saturating_add(right.count);
        if right.number == 0 {
            let repeated = u64::from(repeats(case, sheet::n(case)));
            self.repeated = self.repeated.saturating_add(repeated);
        }
        if right.number == 22 {
            let deep = u64::from(deep(case, right.place));
            self.deep = self.deep.saturating_add(deep);
        }
    }
}
