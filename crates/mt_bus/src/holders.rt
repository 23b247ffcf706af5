// Which caches may have a line.
ghost use Rattle.std.specs.Prelude.{◌≡◌, ℕ, ◌<◌, ◌≤◌, ◌%◌, ◌^◌, List, [], false, replicate, slice_index_or, slice_set, true, IfOk, IsTrue};
ghost use Rattle.mt_cache.specs.Counts.{modulus};
ghost use Rattle.mt_machine.specs.System.{Processor};
ghost use Rattle.mt_bus.specs.Holders.{AreHeldBy, Covers, CoversBut, CoversOthers, mask_of, may_hold};

use mt_cache::MODULUS;
use mt_kinds::is_bit_set;
use mt_ports::NoMemory;
use std::alloc::Global;
use std::marker::Model;

/// The number of processors that have a bit in a mask.
pub(crate) const BITS: usize = 16;

// The bit of a processor.
fn bit(k: usize) -> u16
    requires { k < 16 }
    ensures { result ≡ 2 ^ k }
{
    1 << k as u16
}

// Sets all bits.
fn set_all(masks: &mut [u16])
    ensures { (r : ℕ) → slice_index_or masks.new r 0xffff ≡ 0xffff }
{
    for i in 0..masks.len() {
        masks[i] = 0xffff;
    }
}

// Clears the bit of a processor in each mask.
fn clear_bit(masks: &mut [u16], k: usize)
    requires { k < 16 }
    ensures { CoversOthers k masks.new masks.old }
{
    let others = !bit(k);
    for i in 0..masks.len() {
        masks[i] = masks[i] & others;
    }
}

/// Which caches may have a line: a mask for the lines whose numbers have one residue modulo `MODULUS`, with bit k for the
/// cache of processor k. Any cache may have a line that has no mask, and so may a processor past the sixteenth.
#[derive(Drop)]
pub struct Holders {
    masks: Vec<u16>,
    // the bits that a mask may have, so that `remove_all` skips a processor that has none
    marked: u16,
}

impl Model for Holders {
    ghost Value = { List ℕ };

    ghost view = { λ h. h.masks.items };
}

impl Holders {
    /// No masks, which takes no memory: any cache may have any line.
    pub fn unknown(alloc: Global) -> Holders
        ensures { result ≡ [] }
    {
        Holders {
            masks: Vec::new(alloc),
            marked: 0,
        }
    }

    /// The masks of caches that have no line. Fails only if an allocation fails.
    pub fn new(alloc: Global) -> Result<Holders, NoMemory>
        ensures { IfOk result (λ h. h ≡ replicate modulus 0) }
    {
        match vec![in alloc; 0u16; MODULUS as usize] {
            Ok(masks) => Ok(Holders { masks, marked: 0 }),
            Err(_) => Err(NoMemory),
        }
    }

    /// From here on any cache may have any line.
    pub fn forget(&mut self)
        ensures { (ps : List Processor) → AreHeldBy ps self.new }
    {
        set_all(self.masks.as_mut_slice());
        self.marked = 0xffff;
    }

    // The mask of a line.
    #[inline(always)]
    fn mask(&self, number: u64) -> u16
        ensures { result ≡ mask_of self.now number }
    {
        match self.masks.get((number % MODULUS) as usize) {
            Some(mask) => *mask,
            None => 0xffff,
        }
    }

    /// Whether the cache of a processor may have a line.
    #[inline(always)]
    pub fn may_hold(&self, k: usize, number: u64) -> bool
        ensures { result ≡ may_hold self.now k number }
    {
        if k < BITS {
            is_bit_set(self.mask(number) as u64, k as u8)
        } else {
            true
        }
    }

    /// Returns the first processor from number `i` on whose cache may have a line. It may be past the last processor.
    #[inline(always)]
    pub(crate) fn next(&self, i: usize, number: u64) -> usize
        ensures from { i ≤ result }
        ensures holder { may_hold self.now result number ≡ true }
        ensures skipped { (j : ℕ) → i ≤ j → j < result → may_hold self.now j number ≡ false }
    {
        if i >= BITS {
            return i;
        }
        let rest = self.mask(number) >> i as u16;
        if rest == 0 {
            BITS
        } else {
            i + rest.trailing_zeros() as usize
        }
    }

    /// Returns true only if none of the first sixteen caches may have a line.
    #[inline(always)]
    pub fn none(&self, number: u64) -> bool
        ensures { IsTrue result → (j : ℕ) → j < 16 → may_hold self.now j number ≡ false }
    {
        self.mask(number) == 0
    }

    /// Returns true only if none of the first sixteen caches, except that of one processor, may have a line.
    #[inline(always)]
    pub fn only(&self, k: usize, number: u64) -> bool
        requires { k < 16 }
        ensures { IsTrue result → (j : ℕ) → j < 16 → (j ≡ k → ⊥) → may_hold self.now j number ≡ false }
    {
        let mask = self.mask(number);
        mask == 0 || mask == bit(k)
    }

    // Sets the mask of a line, where there are masks.
    fn set(&mut self, number: u64, mask: u16)
        ensures { self.new ≡ slice_set self.old (number % modulus) mask }
    {
        let r = (number % MODULUS) as usize;
        if r < self.masks.len() {
            let masks = self.masks.as_mut_slice();
            masks[r] = mask;
            self.marked = self.marked | mask;
        }
    }

    /// From here on the cache of a processor may have a line.
    pub fn add(&mut self, k: usize, number: u64)
        ensures added { may_hold self.new k number ≡ true }
        ensures kept { Covers self.new self.old }
    {
        if k < BITS {
            let mask = self.mask(number);
            self.set(number, mask | bit(k));
        }
    }

    /// Clears at most the bit of a processor for a line and those whose numbers have the same residue.
    pub fn remove(&mut self, k: usize, number: u64)
        ensures { CoversBut k number self.new self.old }
    {
        if k < BITS {
            let mask = self.mask(number);
            self.set(number, mask & !bit(k));
        }
    }

    /// Clears at most the bits of one processor.
    pub fn remove_all(&mut self, k: usize)
        ensures { CoversOthers k self.new self.old }
    {
        if k < BITS && is_bit_set(self.marked as u64, k as u8) {
            clear_bit(self.masks.as_mut_slice(), k);
            self.marked = self.marked & !bit(k);
        }
    }
}
