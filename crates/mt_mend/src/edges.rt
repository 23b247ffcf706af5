ghost use Rattle.std.specs.Prelude.{◌≡◌, ◌≤◌, ◌<◌, ◌^◌, ℕ, None};
ghost use Rattle.std.specs.List.{All, sum_by};
ghost use Rattle.mt_regs.specs.Faults.{register_fault};
ghost use Rattle.mt_regs.specs.RegisterFile.{page_count};
ghost use Rattle.mt_regs.specs.declared.page_type.PageType.{PageType};
ghost use Rattle.mt_mend.specs.Wishes.{IsWish, all_edges_past, edges_of, has_page, over, wished_type, EndsInTime};

use crate::Wish;
use mt_regs::RegFile;

// The next page at which a wish begins or ends, or `end`.
fn wish_edge(wish: &Wish, page: u64, end: u64) -> u64
    requires page { page < end }
    requires last { EndsInTime wish.now }
    ensures above { page < result }
    ensures same { (other : ℕ) → page ≤ other → other < result → has_page wish.now other ≡ has_page wish.now page }
    ensures fewer { result < end → edges_of result wish.now < edges_of page wish.now }
{
    if page < wish.first {
        wish.first
    } else if page <= wish.last {
        wish.last + 1
    } else {
        end
    }
}

// The next page at which one of the wishes begins or ends, or `end`.
fn wishes_edge(wishes: &[Wish], page: u64, end: u64) -> u64
    requires page { page < end }
    requires last { All EndsInTime wishes.now }
    ensures above { page < result }
    ensures bound { result ≤ end }
    ensures same { (own : PageType) (other : ℕ) → page ≤ other → other < result → over own wishes.now other ≡ over own wishes.now page }
    ensures fewer { result < end → sum_by (edges_of result) wishes.now < sum_by (edges_of page) wishes.now }
{
    let mut next = end;
    for wish in wishes {
        next = next.min(wish_edge(wish, page, end));
    }
    next
}

/// The next page at which a page's wished type may change, or the number of pages.
pub fn next_edge(f: &RegFile, wishes: &[Wish], page: u64) -> u64
    requires checked { register_fault f.now ≡ None }
    requires page { page < page_count f.now }
    requires wishes { All (IsWish f.now) wishes.now }
    ensures above { page < result }
    ensures bound { result ≤ page_count f.now }
    ensures same { (other : ℕ) → page ≤ other → other < result → wished_type f.now wishes.now other ≡ wished_type f.now wishes.now page }
    ensures fewer { result < page_count f.now → all_edges_past f.now wishes.now result < all_edges_past f.now wishes.now page }
{
    f.is_register_file(); // a fact for the proof
    wishes_edge(wishes, page, f.next_edge(page))
}
