ghost use Rattle.std.specs.Prelude.{◌≡◌, ℕ, ◌<◌, ◌≤◌, List, [], length, slice_get, None, Some, IfSome, IfNone, IsTrue, is_err, OnOk, OnErr};
ghost use Rattle.std.specs.List.{position};
ghost use Rattle.mt_tlb.specs.declared.mapping.Mapping.{Mapping};
ghost use Rattle.mt_tlb.specs.Entries.{AreMappingsApart, find_mapping, is_full_for, maps_page, set_mapping};

use crate::hints::Hints;
use crate::mapping::Mapping;
use arrayvec::ArrayVec;
use std::marker::Model;

/// The page has no mapping, and no other can be added.
#[derive(Clone, Copy, Debug, PartialEq, Eq)]
pub struct Full;

/// The mappings of virtual pages, in the order in which their pages were first mapped. No two
/// have one virtual page.
#[derive(Drop)]
pub struct Maps {
    pub list: ArrayVec<Mapping, 64>,
    hints: Hints,
}

impl Model for Maps {
    ghost Value = { List Mapping };

    ghost view = { λ m. m.list.items };

    ghost invariant = { λ m. AreMappingsApart m.list.items };
}

// The place of the mapping of this page.
fn place_of(list: &[Mapping], vpage: u64) -> Option<usize>
    ensures { result ≡ position (maps_page vpage) list.now }
{
    list.iter().position(|m| m.vpage == vpage)
}

// Whether the mapping at a place is that of this page.
fn is_at(list: &[Mapping], i: usize, vpage: u64) -> bool
    requires { AreMappingsApart list.now }
    ensures { IsTrue result → position (maps_page vpage) list.now ≡ Some i }
{
    i < list.len() && list[i].vpage == vpage
}

impl Maps {
    /// No mapping.
    pub fn new() -> Self
        ensures { result ≡ [] }
    {
        Maps {
            list: ArrayVec::new(),
            hints: Hints::new(),
        }
    }

    /// The mappings, in the order in which their pages were first mapped.
    pub fn list(&self) -> &[Mapping]
        ensures value { result.now ≡ self.now }
        ensures apart { AreMappingsApart self.now }
        ensures room { length self.now ≤ 64 }
    {
        self.list.as_slice()
    }

    // The place of the mapping of this page, where it was last or by a search.
    fn look_up(&mut self, vpage: u64) -> Option<usize>
        ensures value { result ≡ position (maps_page vpage) self.old }
        ensures kept { self.new ≡ self.old }
    {
        let guess = self.hints.guess(vpage);
        if is_at(self.list.as_slice(), guess, vpage) {
            return Some(guess);
        }
        let i = place_of(self.list.as_slice(), vpage)?;
        self.hints.keep(vpage, i);
        Some(i)
    }

    /// The place of the mapping of this page.
    pub fn find(&mut self, vpage: u64) -> Option<usize>
        ensures value { result ≡ position (maps_page vpage) self.old }
        ensures place { IfSome result (λ i. i < length self.old) }
        ensures mapping { IfSome result (λ i. slice_get self.old i ≡ find_mapping vpage self.old) }
        ensures absent { IfNone result (find_mapping vpage self.old ≡ None) }
        ensures kept { self.new ≡ self.old }
    {
        self.look_up(vpage)
    }

    /// Replaces the mapping of a page in its place, or adds it at the end. Fails if the page has no
    /// mapping and 64 others have one; nothing then changes.
    pub fn set(&mut self, x: Mapping) -> Result<(), Full>
        ensures full { is_err result ≡ is_full_for x self.old }
        ensures done { OnOk result (self.new ≡ set_mapping x self.old) }
        ensures kept { OnErr result (self.new ≡ self.old) }
    {
        let Some(i) = place_of(self.list.as_slice(), x.vpage) else {
            if self.list.is_full() {
                return Err(Full);
            }
            self.list.push(x);
            return Ok(());
        };
        self.list.as_mut_slice()[i] = x;
        Ok(())
    }
}
