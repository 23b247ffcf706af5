ghost use Rattle.std.specs.Prelude.{◌≡◌, ◌+◌, ◌<◌, ◌≤◌, ℕ, MatchOption, Some, length, set, slice_get};
ghost use Rattle.std.specs.List.{slice_index_or};
ghost use Rattle.mt_tidy.specs.AllCosts.{AreBounded, sum_of};
ghost use Rattle.mt_tidy.specs.declared.costs.Costs.{Costs};

use crate::block_costs::{NO_CHOICE, NO_COSTS, sums};
use crate::costs::{Choice, Costs};
use crate::packed::{NO_RUN, PackedRun};

/// What a search finds, and the costs that it has under way: so its stack is small.
#[repr(C)]
#[derive(Drop)]
pub struct CostTable {
    // of the blocks that are divided, in the order in which the search comes to them
    pub(crate) choices: [Choice; 16868],
    // of the lower half of the block that is divided, by the half's log
    pub(crate) saved: [Costs; 40],
    // of the block that was looked for last
    pub(crate) found: Costs,
    // how many blocks that are divided the search came to
    pub(crate) count: usize,
    // a guess where the next block is among the runs
    pub(crate) near: usize,
}

/// Room for a call to work in. What is in it when the call begins doesn't matter.
#[repr(C)]
#[derive(Drop)]
pub struct WorkArea {
    pub costs: CostTable,
    /// The type map of the file.
    pub own: [PackedRun; 153],
    /// The type map that is wanted where it isn't the file's own.
    pub wanted: [PackedRun; 612],
}

impl CostTable {
    // Keeps a choice, where the table has room for it.
    pub(crate) fn keep(&mut self, place: usize, choice: Choice)
        ensures choices { self.new.choices ≡ set self.old.choices place choice }
        ensures saved { self.new.saved ≡ self.old.saved }
        ensures found { self.new.found ≡ self.old.found }
        ensures count { self.new.count ≡ self.old.count }
    {
        if place < self.choices.len() {
            self.choices[place] = choice;
        }
    }

    // The choice at a place, where the table goes so far.
    pub(crate) fn kept(&self, place: usize) -> Option<Choice>
        ensures { slice_get self.now.choices place ≡ result }
    {
        if place < self.choices.len() {
            Some(self.choices[place])
        } else {
            None
        }
    }

    // Saves what was found, for the half of a block.
    pub(crate) fn save(&mut self, log: u8)
        requires { log < 40 }
        ensures saved { (d : Costs) → slice_index_or self.new.saved log d ≡ self.old.found }
        ensures others { (i : ℕ) (d : Costs) → log < i → slice_index_or self.new.saved i d ≡ slice_index_or self.old.saved i d }
        ensures choices { self.new.choices ≡ self.old.choices }
        ensures found { self.new.found ≡ self.old.found }
        ensures count { self.new.count ≡ self.old.count }
    {
        self.saved[log as usize] = self.found;
    }

    // The costs of two halves, taken together.
    pub(crate) fn halves(&self, log: u8) -> Costs
        requires log { log < 40 }
        requires lower { (d : Costs) → AreBounded (slice_index_or self.now.saved log d) }
        requires upper { AreBounded self.now.found }
        ensures { (d : Costs) → result ≡ sum_of (slice_index_or self.now.saved log d) self.now.found }
    {
        sums(&self.saved[log as usize], &self.found)
    }
}

impl WorkArea {
    /// An area of zeros.
    pub fn new() -> WorkArea {
        WorkArea {
            costs: CostTable {
                choices: [NO_CHOICE; 16868],
                saved: [NO_COSTS; 40],
                found: NO_COSTS,
                count: 0,
                near: 0,
            },
            own: [NO_RUN; 153],
            wanted: [NO_RUN; 612],
        }
    }
}
