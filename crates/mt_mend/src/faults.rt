ghost use Rattle.std.specs.Prelude.{◌≡◌, ◌<◌, ◌^◌, IfNone, IfSome, length};
ghost use Rattle.std.specs.List.{All};
ghost use Rattle.mt_mend.specs.Wishes.{IsFirstWishFault, IsWish, wish_fault};

use crate::{Wish, WishFault};
use mt_regs::{RegFile, is_supported};

// What is wrong with a wish.
fn wish_fault(f: &RegFile, wish: &Wish) -> Option<WishFault>
    ensures { result ≡ wish_fault f.now wish.now }
{
    if wish.last < wish.first {
        Some(WishFault::NoPage)
    } else if f.pages() <= wish.last {
        Some(WishFault::BeyondWidth)
    } else if !is_supported(f.has_write_combining(), wish.kind.byte()) {
        Some(WishFault::UnsupportedType)
    } else {
        None
    }
}

/// The first wish that is at fault, by its number, and what is wrong with it.
pub fn first_wish_fault(f: &RegFile, wishes: &[Wish]) -> Option<(u32, WishFault)>
    requires { length wishes.now < 2 ^ 32 }
    ensures none { IfNone result (All (IsWish f.now) wishes.now) }
    ensures some { IfSome result (λ found. IsFirstWishFault f.now wishes.now found.0 found.1) }
{
    for (n, wish) in wishes.iter().enumerate() {
        if let Some(fault) = wish_fault(f, wish) {
            return Some((n as u32, fault));
        }
    }
    None
}
