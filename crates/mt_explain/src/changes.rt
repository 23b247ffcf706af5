ghost use Rattle.std.specs.Prelude.{◌≡◌, ◌↔◌, ◌≤◌, ◌<◌, ℕ, max, None, IfOk, IsTrue};
ghost use Rattle.mt_regs.specs.RegisterFile.{page_count};
ghost use Rattle.mt_regs.specs.Faults.{register_fault};
ghost use Rattle.mt_explain.specs.TypeChanges.{AreTypeChanges, change_mark, changed_pages, is_same_type, type_shown};

use crate::marked::Marked;
use crate::walk::{marked_pages, spans};
use crate::{Span, TypeChange};
use mt_regs::{PageType, RegFile, same_page_type};
use std::alloc::{AllocError, Global};

fn is_same_type(a: Option<PageType>, b: Option<PageType>) -> bool
    ensures test { result ≡ is_same_type a b }
    ensures equal { IsTrue result ↔ (a ≡ b) }
{
    match a {
        Some(t) => match b {
            Some(u) => same_page_type(t, u),
            None => false,
        },
        None => match b {
            Some(_) => false,
            None => true,
        },
    }
}

// The type that a file gives a page, if it has the page.
fn type_shown(f: &RegFile, page: u64) -> Option<PageType>
    ensures { result ≡ type_shown f.now page }
{
    if page < f.pages() {
        Some(f.page_type(page))
    } else {
        None
    }
}

// The next page at which a page's type may change, or the end of all pages.
fn edge_in(f: &RegFile, page: u64, end: u64) -> u64
    requires checked { register_fault f.now ≡ None }
    requires page { page < end }
    requires end { page_count f.now ≤ end }
    ensures above { page < result }
    ensures bound { result ≤ end }
    ensures same { (other : ℕ) → page ≤ other → other < result → type_shown f.now other ≡ type_shown f.now page }
{
    if page < f.pages() {
        f.next_edge(page)
    } else {
        end
    }
}

fn same_change(a: TypeChange, b: TypeChange) -> bool
    ensures { IsTrue result ↔ (a ≡ b) }
{
    is_same_type(a.old, b.old) && is_same_type(a.new, b.new)
}

// Two files: a page whose types differ has them as its mark.
#[derive(Drop)]
struct Compared<'a> {
    old: &'a RegFile,
    new: &'a RegFile,
}

impl<'a> Marked for Compared<'a> {
    type Mark = TypeChange;

    ghost size = { λ c. max (page_count c.old.now) (page_count c.new.now) };

    ghost marks = { λ c page. change_mark c.old.now c.new.now page };

    ghost is_checked = { λ c. (register_fault c.old.now ≡ None) × (register_fault c.new.now ≡ None) };

    fn pages(&self) -> u64 {
        self.old.pages().max(self.new.pages())
    }

    fn mark_at(&self, page: u64) -> Option<TypeChange> {
        let old = type_shown(self.old, page);
        let new = type_shown(self.new, page);
        if is_same_type(old, new) {
            None
        } else {
            Some(TypeChange { old, new })
        }
    }

    fn has(&self, page: u64, mark: &TypeChange) -> bool {
        match self.mark_at(page) {
            Some(change) => same_change(change, *mark),
            None => false,
        }
    }

    fn next_edge(&self, page: u64) -> u64 {
        let end = self.pages();
        edge_in(self.old, page, end).min(edge_in(self.new, page, end))
    }
}

/// The longest runs of pages whose types differ in two files, each with its two types, in ascending order. No register of the
/// files is at fault by itself. A page beyond the width of one of them differs, since it has no type there. Fails only if
/// an allocation fails.
pub fn type_changes(
    alloc: Global,
    old: &RegFile,
    new: &RegFile,
) -> Result<Vec<Span<TypeChange>>, AllocError>
    requires old { register_fault old.now ≡ None }
    requires new { register_fault new.now ≡ None }
    ensures { IfOk result (λ changes. AreTypeChanges old.now new.now changes.items) }
{
    spans(alloc, &Compared { old, new })
}

/// How many pages are in these runs. No register of the files is at fault by itself.
pub fn changed_pages(old: &RegFile, new: &RegFile) -> u64
    requires old { register_fault old.now ≡ None }
    requires new { register_fault new.now ≡ None }
    ensures { result ≡ changed_pages old.now new.now }
{
    marked_pages(&Compared { old, new })
}
