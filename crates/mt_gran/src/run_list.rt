ghost use Rattle.std.specs.Prelude.{◌≡◌, ◌≤◌, length, take};

use mt_kinds::MemType;
use mt_regs::PageType;
use mt_tidy::PackedRuns;
use mt_types::Run;
use std::marker::Model;

const NO_RUN: Run = Run {
    first: 0,
    count: 0,
    kind: PageType::Kind(MemType::UC),
};

/// At most `N` runs, in the first places of an array. It takes no memory.
#[derive(Drop)]
pub struct RunList<const N: usize> {
    places: [Run; N],
    count: usize,
}

impl<const N: usize> Model for RunList<N> {
    ghost use Rattle.std.specs.Prelude.{◌≡◌, ◌≤◌, List, length, take};
    ghost use Rattle.mt_types.specs.declared.run.Run.{Run};

    ghost Value = { List Run };

    ghost view = { λ r. take r.count r.places };

    ghost invariant = { λ r. (r.count ≤ N) × (length r.places ≡ N) };
}

// The runs that stand as words, in the first places of an array.
fn unpacked<const N: usize>(runs: &PackedRuns) -> [Run; N]
    requires { length runs.now ≤ N }
    ensures { take (length runs.now) result ≡ runs.now }
{
    let mut places = [NO_RUN; N];
    for i in 0..runs.count() {
        places[i] = runs.run_at(i);
    }
    places
}

impl<const N: usize> RunList<N> {
    // The runs that stand as words.
    pub(crate) fn of(runs: &PackedRuns) -> RunList<N>
        requires { length runs.now ≤ N }
        ensures { result ≡ runs.now }
    {
        RunList {
            places: unpacked(runs),
            count: runs.count(),
        }
    }

    /// All runs.
    pub fn as_slice(&self) -> &[Run]
        ensures runs { result.now ≡ self.now }
        ensures few { length result.now ≤ N }
    {
        &self.places[..self.count]
    }
}
