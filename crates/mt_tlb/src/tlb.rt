ghost use Rattle.std.specs.Prelude.{◌≡◌, ℕ, ◌<◌, ◌≤◌, List, [], length, slice_get, None, Some, IfSome, IfNone, IsTrue};
ghost use Rattle.std.specs.List.{position};
ghost use Rattle.mt_tlb.specs.declared.entry.Entry.{Entry};
ghost use Rattle.mt_tlb.specs.Entries.{AreEntriesApart, add_entry, find_entry, global_entries, has_page, without_page};

use crate::entry::Entry;
use crate::hints::Hints;
use arrayvec::ArrayVec;
use std::marker::Model;

/// The entries of a TLB, the oldest first. No two have one virtual page.
#[derive(Drop)]
pub struct Tlb {
    pub entries: ArrayVec<Entry, 64>,
    hints: Hints,
}

impl Model for Tlb {
    ghost Value = { List Entry };

    ghost view = { λ t. t.entries.items };

    ghost invariant = { λ t. AreEntriesApart t.entries.items };
}

// The place of the entry of this page.
fn place_of(entries: &[Entry], vpage: u64) -> Option<usize>
    ensures { result ≡ position (has_page vpage) entries.now }
{
    entries.iter().position(|e| e.vpage == vpage)
}

// Whether the entry at a place is that of this page.
fn is_at(entries: &[Entry], i: usize, vpage: u64) -> bool
    requires { AreEntriesApart entries.now }
    ensures { IsTrue result → position (has_page vpage) entries.now ≡ Some i }
{
    i < entries.len() && entries[i].vpage == vpage
}

impl Tlb {
    /// A TLB without entries.
    pub fn new() -> Self
        ensures { result ≡ [] }
    {
        Tlb {
            entries: ArrayVec::new(),
            hints: Hints::new(),
        }
    }

    /// The entries, the oldest first.
    pub fn entries(&self) -> &[Entry]
        ensures value { result.now ≡ self.now }
        ensures apart { AreEntriesApart self.now }
        ensures room { length self.now ≤ 64 }
    {
        self.entries.as_slice()
    }

    // The place of the entry of this page, where it was last or by a search.
    fn look_up(&mut self, vpage: u64) -> Option<usize>
        ensures value { result ≡ position (has_page vpage) self.old }
        ensures kept { self.new ≡ self.old }
    {
        let guess = self.hints.guess(vpage);
        if is_at(self.entries.as_slice(), guess, vpage) {
            return Some(guess);
        }
        let i = place_of(self.entries.as_slice(), vpage)?;
        self.hints.keep(vpage, i);
        Some(i)
    }

    /// The place of the entry of this page.
    pub fn find(&mut self, vpage: u64) -> Option<usize>
        ensures value { result ≡ position (has_page vpage) self.old }
        ensures place { IfSome result (λ i. i < length self.old) }
        ensures entry { IfSome result (λ i. slice_get self.old i ≡ find_entry vpage self.old) }
        ensures absent { IfNone result (find_entry vpage self.old ≡ None) }
        ensures kept { self.new ≡ self.old }
    {
        self.look_up(vpage)
    }

    /// Adds an entry. Where 64 stood, the oldest is dropped.
    pub fn fill(&mut self, e: Entry)
        requires { find_entry e.vpage self.old ≡ None }
        ensures { self.new ≡ add_entry e self.old }
    {
        if self.entries.is_full() {
            self.entries.remove(0);
        }
        self.hints.keep(e.vpage, self.entries.len());
        self.entries.push(e);
    }

    /// Drops the entry of this page.
    pub fn drop_page(&mut self, vpage: u64)
        ensures { self.new ≡ without_page vpage self.old }
    {
        self.entries.retain(|e| e.vpage != vpage);
    }

    /// Drops the entries that are not global.
    pub fn drop_local(&mut self)
        ensures { self.new ≡ global_entries self.old }
    {
        self.entries.retain(|e| e.global);
    }

    /// Drops all entries.
    pub fn drop_all(&mut self)
        ensures { self.new ≡ [] }
    {
        self.entries.clear();
    }
}
