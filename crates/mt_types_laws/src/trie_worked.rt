ghost use Rattle.std.specs.Prelude.{◌≡◌, true};
ghost use Rattle.mt_ranges.specs.declared.block.Block.{Block};
ghost use Rattle.mt_trie.specs.Wishes.{InBlock, IsWish, wanted_type};
ghost use Rattle.mt_types_laws.specs.TrieWorkedRuns.{two_runs};

use mt_kinds::MemType;
use mt_trie::Wish;

/// What the pages of a block across page 256 want, of which the fixed ranges take the first half.
pub fn worked_wishes_of_blocks()
    ensures { (b : Block) → b.first ≡ 0 → b.log ≡ 9 → IsWish (wanted_type true two_runs) (InBlock b) (Wish.Only MemType.WB) }
{}
