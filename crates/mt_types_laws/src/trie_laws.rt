ghost use Rattle.std.specs.Prelude.{◌≡◌, ℕ, List, Option};
ghost use Rattle.mt_kinds.specs.declared.mem_type.MemType.{MemType};
ghost use Rattle.mt_ranges.specs.declared.block.Block.{Block};
ghost use Rattle.std.specs.List.{list_any};
ghost use Rattle.mt_regs.specs.RegisterFile.{RegisterFile};
ghost use Rattle.mt_regs.specs.PageTypes.{combined, is_type, matching_types, page_type, types_at};
ghost use Rattle.mt_trie.specs.declared.context.Context.{Context};
ghost use Rattle.mt_trie.specs.declared.wish.Wish.{Wish};
ghost use Rattle.mt_trie.specs.Contexts.{join, joined, type_left};
ghost use Rattle.mt_trie.specs.Wishes.{InBlock, IsWish};

/// The join of contexts is commutative, associative and idempotent.
pub fn joins_are_free_of_order()
    ensures commutes { (x y : Context) → join x y ≡ join y x }
    ensures associates { (x y z : Context) → join x (join y z) ≡ join (join x y) z }
    ensures absorbs { (x : Context) → join x x ≡ x }
{}

/// The type of a page whose type ranges give is what the join of their types leaves.
pub fn a_page_type_is_a_join()
    ensures { (default : MemType) (types : List MemType) → combined default types ≡ type_left default (joined types) }
{}

/// A page's type depends on the set of its matching types alone: pairs in place of a file's own, of which
/// the same types match a page, leave it its type.
pub fn a_page_type_is_of_a_set()
    ensures types { (default : MemType) (types others : List MemType) → ((t : MemType) → list_any (is_type t) types ≡ list_any (is_type t) others)
        → combined default types ≡ combined default others }
    ensures pairs { (f : RegisterFile) (pairs : List (ℕ × ℕ)) (page : ℕ)
        → ((t : MemType) → list_any (is_type t) (types_at f.width pairs page) ≡ list_any (is_type t) (matching_types f page))
        → page_type (record f { pairs = pairs }) page ≡ page_type f page }
{}

/// The pages of a block have no two wishes.
pub fn a_block_has_one_wish()
    ensures { (wanted : ℕ → Option MemType) (b : Block) (v w : Wish) → IsWish wanted (InBlock b) v → IsWish wanted (InBlock b) w → v ≡ w }
{}
