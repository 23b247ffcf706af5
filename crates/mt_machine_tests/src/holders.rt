use crate::checks::{holds, some};
use crate::common::{Start, called, pair, updated};
use mt_bus::System;
use mt_core::Core;

// The number of the line at 1 MB.
const LINE: u64 = 0x4000;

/// Whether no cache may have the line, by the masks of the core's system, also once it was taken apart and put together.
fn has_masks(core: Core) -> bool {
    let parts = core.into_system().into_parts();
    let known = parts.holders.none(LINE);
    let parts = System::from_parts(parts).into_parts();
    known && parts.holders.none(LINE)
}

/// Whether cache 0 alone may have the line.
fn has_bit(core: Core) -> bool {
    let parts = core.into_system().into_parts();
    parts.holders.may_hold(0, LINE) && !parts.holders.may_hold(1, LINE)
}

// A new system has the masks, a store sets its bit, and a whole update clears it.
#[test]
fn masks_of_holders_are_kept(rt: HostRuntime) {
    let start = Start {
        kind: 6,
        is_mixed: false,
    };
    holds(&rt, has_masks(some(&rt, pair(rt.alloc(), 6))));
    holds(&rt, has_bit(some(&rt, called(rt.alloc(), start))));
    holds(&rt, has_masks(some(&rt, updated(rt.alloc(), start))));
}
