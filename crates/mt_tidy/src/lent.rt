ghost use Rattle.std.specs.Prelude.{◌≡◌, ◌<◌, ◌≤◌, length, slice_index_or};
ghost use Rattle.std.specs.List.{All};
ghost use Rattle.mt_ranges.specs.Blocks.{block_end};
ghost use Rattle.mt_tidy.specs.Cost.{task_by, wish};
ghost use Rattle.mt_trie.specs.RunWishes.{first_page};
ghost use Rattle.mt_trie.specs.Wishes.{IsDefined};
ghost use Rattle.mt_types.specs.declared.run.Run.{Run};
ghost use Rattle.mt_types.specs.Runs.{HasPage, IsChain, IsTypeMap, pages_end};

use crate::packed::PackedRuns;
use crate::rules::Rules;
use mt_ranges::Block;
use mt_trie::Wish;

// A guess, where the run there doesn't begin past a page, or the place of the first run.
fn begin_at(list: &PackedRuns, guess: usize, page: u64) -> usize
    requires chain { IsChain 0 list.now }
    requires covered { page < pages_end 0 list.now }
    ensures within { result < length list.now }
    ensures low { (d : Run) → (slice_index_or list.now result d).first ≤ page }
{
    if guess < list.count() && list.run_at(guess).first <= page {
        guess
    } else {
        0
    }
}

// The place of the run that has a page, which is looked for from a guess on.
fn place_of(list: &PackedRuns, guess: usize, page: u64) -> usize
    requires chain { IsChain 0 list.now }
    requires covered { page < pages_end 0 list.now }
    ensures within { result < length list.now }
    ensures page { (d : Run) → HasPage (slice_index_or list.now result d) page }
{
    let count = list.count();
    let mut place = begin_at(list, guess, page);
    while place + 1 < count && list.run_at(place + 1).first <= page {
        place += 1;
    }
    place
}

// The first page of a block that may not be free.
fn first_page(rules: &Rules, b: &Block) -> u64
    ensures { result ≡ first_page rules.now.fixed b.now.first }
{
    if rules.fixed && b.first < 256 {
        256
    } else {
        b.first
    }
}

/// What the pages of a block want. `near` is a guess where its first page is among the runs, and is left for the block
/// behind it; no answer depends on it.
#[inline(never)] // so that its callers, which call themselves, take little stack
pub fn wish_of(wanted: &PackedRuns, rules: &Rules, b: &Block, near: &mut usize) -> Wish
    requires map { IsTypeMap wanted.now }
    requires defined { All IsDefined wanted.now }
    requires covered { block_end b.now ≤ pages_end 0 wanted.now }
    ensures { wish (task_by rules.now wanted.now) b.now.log b.now.first ≡ result }
{
    let start = first_page(rules, b);
    let end = b.end();
    if end <= start {
        return Wish::Any;
    }
    let place = place_of(wanted, *near, start);
    *near = place;
    let run = wanted.run_at(place);
    if run.first + run.count < end {
        Wish::Mixed
    } else {
        Wish::Only(run.kind.defined())
    }
}
