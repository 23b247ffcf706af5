ghost use Rattle.std.specs.Prelude.{◌≡◌, ℕ, ◌<◌, ◌≤◌, ◌+◌, ◌*◌, ◌^◌, ◌%◌, ◌++◌, [], length, map, replicate, slice_index, slice_range, slice_set, MatchOption, OnOk, OnErr, IfSome, None, nat_le, nat_lt, ◌&&◌};
ghost use Rattle.std.specs.Borrow.{Array, Lends, sem, u64};
ghost use Rattle.std.specs.List.{All};
ghost use Rattle.mt_kinds.specs.Sizes.{most_lines};
ghost use Rattle.mt_machine.specs.Memory.{IsMemory, Memory, place, place_in, put_word, window_end, word_at, word_count};
ghost use Rattle.mt_machine.specs.Update.{addresses};
ghost use Rattle.mt_ram.specs.contracts.ram.Ram.{the_row};
ghost use Rattle.mt_ram.specs.Windows.{is_overlap, refusal, refusal_in, shares_byte, window, window_of, with_line, with_window, with_words};

use crate::fault::RamFault;
use crate::window::Window;
use arrayvec::ArrayVec;
use mt_kinds::{LINE_BYTES, MOST_LINES, WORD_BYTES};
use std::alloc::Global;
use std::marker::Model;

/// The words of all windows together are at most these, those of as many lines as memory has at most.
const MOST_WORDS: usize = 8 * MOST_LINES as usize;

/// The zeros in front of the words: an update on threads has two words of its own and one for each of 16 processors.
const FRONT: usize = 18;

/// Memory: at most 16 windows, which share no byte, and the words of all of them in a row.
#[derive(Drop)]
pub struct Ram {
    windows: ArrayVec<Window, 16>,
    // Empty, or `FRONT` zeros and the words of all windows.
    words: Vec<u64>,
}

impl Model for Ram {
    ghost use Rattle.std.specs.Prelude.{map};
    ghost use Rattle.mt_machine.specs.Memory.{Memory};
    ghost use Rattle.mt_ram.specs.Windows.{IsRam, behind_front, window_of};

    ghost Value = { Memory };

    ghost view = { λ r. behind_front (map window_of r.windows.items) r.words.items };

    ghost invariant = { λ r. IsRam (map window_of r.windows.items) r.words.items };
}

impl Window {
    // Whether this window and one at an address with so many lines have a byte in common.
    fn shares_byte(&self, base: u64, lines: u32) -> bool
        requires own { window_end (window_of self.now) ≤ 2 ^ 52 }
        requires other { base + 64 * lines ≤ 2 ^ 52 }
        ensures { result ≡ shares_byte (window_of self.now) (window base lines) }
    {
        self.base < base + LINE_BYTES * lines as u64
            && base < self.base + LINE_BYTES * self.lines as u64
    }

    // Whether the byte at this address is in the window.
    fn covers(&self, address: u64) -> bool
        requires { window_end (window_of self.now) ≤ 2 ^ 52 }
        ensures { result ≡ (nat_le self.now.base address && nat_lt address (window_end (window_of self.now))) }
    {
        self.base <= address && address < self.base + LINE_BYTES * self.lines as u64
    }
}

// Whether one of these windows has a byte of a window at this address with so many lines.
fn is_overlap(windows: &[Window], base: u64, lines: u32) -> bool
    requires end { base + 64 * lines ≤ 2 ^ 52 }
    requires bounded { All (λ w. window_end w ≤ 2 ^ 52) (map window_of windows.now) }
    ensures { result ≡ is_overlap (map window_of windows.now) (window base lines) }
{
    for w in windows {
        if w.shares_byte(base, lines) {
            return true;
        }
    }
    false
}

// The place of the word at this address, if one of these windows has it.
fn place_in(windows: &[Window], address: u64) -> Option<usize>
    requires bounded { All (λ w. window_end w ≤ 2 ^ 52) (map window_of windows.now) }
    requires few { word_count (map window_of windows.now) ≤ 8 * most_lines }
    ensures { result ≡ place_in (map window_of windows.now) 0 address }
{
    let mut before = 0;
    for w in windows {
        if w.covers(address) {
            return Some(before + ((address - w.base) / WORD_BYTES) as usize);
        }
        before += 8 * w.lines as usize;
    }
    None
}

// The address of the word at this place in these windows; 0 where there is none.
fn address_in(windows: &[Window], i: usize) -> u64
    requires bounded { All (λ w. window_end w ≤ 2 ^ 52) (map window_of windows.now) }
    ensures { result ≡ slice_index (addresses (map window_of windows.now)) i }
{
    let mut left = i;
    for w in windows {
        let words = 8 * w.lines as usize;
        if left < words {
            return w.base + WORD_BYTES * left as u64;
        }
        left -= words;
    }
    0
}

// The same windows.
fn same_windows(windows: &[Window]) -> ArrayVec<Window, 16>
    requires few { length windows.now ≤ 16 }
    ensures { result.items ≡ windows.now }
{
    let mut copy = ArrayVec::new();
    for w in windows {
        copy.push(*w);
    }
    copy
}

impl Ram {
    /// Memory without windows.
    pub fn new(alloc: Global) -> Self
        ensures { result ≡ record { windows = []; words = [] } }
    {
        Ram {
            windows: ArrayVec::new(),
            words: Vec::new(alloc),
        }
    }

    // Why a window cannot be added.
    fn refusal(&self, base: u64, lines: u32) -> Option<RamFault>
        requires few { lines ≤ most_lines }
        requires end { base + 64 * lines ≤ 2 ^ 52 }
        ensures { result ≡ refusal self.now.windows (window base lines) }
    {
        if base % LINE_BYTES != 0 {
            Some(RamFault::Misaligned)
        } else if is_overlap(self.windows.as_slice(), base, lines) {
            Some(RamFault::Overlaps)
        } else if self.words() + 8 * lines as usize > MOST_WORDS || self.windows.is_full() {
            Some(RamFault::TooMuch)
        } else {
            None
        }
    }

    /// Adds a window of zero words, from an address in bytes on.
    ///
    /// # Errors
    ///
    /// Misaligned if the address is no multiple of 64; else Overlaps if an earlier window has a byte of it. Else
    /// TooMuch if there would be more than 4,096 lines or 16 windows; else NoMemory if an allocation fails. Nothing
    /// then changes.
    pub fn add(&mut self, base: u64, lines: u32) -> Result<(), RamFault>
        requires some { 0 < lines }
        requires few { lines ≤ most_lines }
        requires end { base + 64 * lines ≤ 2 ^ 52 }
        ensures refused { refusal_in result ≡ refusal self.old.windows (window base lines) }
        ensures added { OnOk result (self.new ≡ with_window (window base lines) self.old) }
        ensures kept { OnErr result (self.new ≡ self.old) }
    {
        if let Some(fault) = self.refusal(base, lines) {
            return Err(fault);
        }
        let size = FRONT + self.words() + 8 * lines as usize;
        if self.words.resize(size, 0).is_err() {
            return Err(RamFault::NoMemory);
        }
        self.windows.push(Window { base, lines });
        Ok(())
    }

    /// The place of the word at this address, in bytes. There is none if and only if the address is no multiple of 8 or
    /// lies in no window. Places count through the windows in the order in which they were added, and through each by
    /// address.
    pub fn place(&self, address: u64) -> Option<usize>
        ensures value { result ≡ place self.now address }
        ensures within { IfSome result (λ i. i < length self.now.words) }
    {
        if address % WORD_BYTES == 0 {
            place_in(self.windows.as_slice(), address)
        } else {
            None
        }
    }

    /// The number of words.
    pub fn words(&self) -> usize
        ensures count { result ≡ length self.now.words }
        ensures memory { IsMemory self.now }
    {
        self.words.len().saturating_sub(FRONT)
    }

    /// Borrows n zeros and all words behind them, in the order of their places. There is nothing to borrow if memory has
    /// no window.
    pub fn behind_zeros(&self, n: usize) -> Option<&[u64]>
        requires { n ≤ 18 }
        ensures { MatchOption result (self.now.words ≡ []) (λ s. s.now ≡ replicate n 0 ++ self.now.words) }
    {
        if self.words.is_empty() {
            None
        } else {
            Some(&self.words[FRONT - n..])
        }
    }

    /// Borrows all words for writing, in the order of their places.
    pub fn as_mut_slice(&mut self) -> &mut [u64]
        ensures* writes_back { sem 𝓛 (Lends the_row (Array u64 0) self.entry result (with_words self.old)) }
        ensures value { result.now ≡ self.old.words }
        ensures whole { length result.now ≡ length self.old.words }
    {
        let size = self.words.len();
        self.words.slice_mut(FRONT.min(size)..size)
    }

    /// The word at a place.
    pub fn word(&self, i: usize) -> u64
        requires { i < length self.now.words }
        ensures { result ≡ slice_index self.now.words i }
    {
        self.words[FRONT + i]
    }

    /// The word at this address, in bytes; 0 where no window has it.
    pub fn read(&self, address: u64) -> u64
        ensures { result ≡ word_at self.now address }
    {
        match self.place(address) {
            Some(i) => self.word(i),
            None => 0,
        }
    }

    /// Writes the word at this address, in bytes. Nothing changes where no window has it.
    pub fn write(&mut self, address: u64, v: u64)
        ensures { self.new ≡ put_word self.old address v }
    {
        if let Some(i) = self.place(address) {
            self.put(i, v);
        }
    }

    /// Borrows the eight words of a line for writing, from the place of the first on.
    pub fn line_mut(&mut self, i: usize) -> &mut [u64]
        requires line { i % 8 ≡ 0 }
        requires within { i < length self.old.words }
        ensures* writes_back { sem 𝓛 (Lends the_row (Array u64 0) self.entry result (with_line i self.old)) }
        ensures value { result.now ≡ slice_range self.old.words i (i + 8) }
        ensures whole { length result.now ≡ 8 }
    {
        self.words.slice_mut(FRONT + i..FRONT + i + 8)
    }

    /// Writes the word at a place.
    pub fn put(&mut self, i: usize, v: u64)
        requires { i < length self.old.words }
        ensures { self.new ≡ record self.old { words = slice_set self.old.words i v } }
    {
        self.words[FRONT + i] = v;
    }

    /// The address of the word at a place, in bytes.
    pub fn address(&self, i: usize) -> u64
        ensures { result ≡ slice_index (addresses self.now.windows) i }
    {
        address_in(self.windows.as_slice(), i)
    }

    /// Memory with the same windows, in which all words are 0. There is none only where the allocator has no room.
    pub fn blank(&self, alloc: Global) -> Option<Ram>
        ensures { IfSome result (λ r. r ≡ record self.now { words = replicate (length self.now.words) 0 }) }
    {
        let mut words = Vec::new(alloc);
        if words.resize(self.words.len(), 0).is_err() {
            return None;
        }
        Some(Ram {
            windows: same_windows(self.windows.as_slice()),
            words,
        })
    }
}
