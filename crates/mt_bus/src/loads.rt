ghost use Rattle.std.specs.Prelude.{◌≡◌, ◌<◌, ◌/◌, ◌&&◌, not, length, None, Some, MatchOption};
ghost use Rattle.mt_cache.specs.declared.line.CacheLine.{CacheLine};
ghost use Rattle.mt_cache.specs.Lines.{find_line};
ghost use Rattle.mt_machine.specs.System.{lines_of};
ghost use Rattle.mt_machine.specs.Access.{cache_disabled_of, first_of_load, hit_of, is_cached, load, load_after};

use crate::bus::Bus;
use mt_cache::{Cache, CacheLine};
use mt_kinds::{LINE_BYTES, MemType, WORD_BYTES};

/// Whether lines of this type are cached.
fn is_cached(kind: MemType) -> bool
    ensures { result ≡ is_cached kind }
{
    match kind {
        MemType::UC | MemType::WC => false,
        MemType::WT | MemType::WP | MemType::WB => true,
    }
}

// The line of this number.
fn line_of(cache: &Cache, number: u64) -> Option<&CacheLine>
    ensures { MatchOption result (find_line number cache.now ≡ None) (λ l. find_line number cache.now ≡ Some l.now) }
{
    match cache.find(number) {
        Some(i) => Some(cache.nth(i)),
        None => None,
    }
}

impl Bus {
    /// A processor's cached line.
    pub(crate) fn line_in(&self, k: usize, number: u64) -> Option<&CacheLine>
        requires { k < length self.now.processors }
        ensures { MatchOption result (find_line number (lines_of self.now k) ≡ None) (λ l. find_line number (lines_of self.now k) ≡ Some l.now) }
    {
        line_of(self.cpus[k].cache(), number)
    }

    fn first_of_load(&mut self, k: usize, kind: MemType, number: u64)
        requires { k < length self.old.processors }
        ensures { self.new ≡ first_of_load kind k number self.old }
    {
        match kind {
            MemType::UC => self.drain(k),
            MemType::WC | MemType::WT | MemType::WP | MemType::WB => self.drain_line(k, number),
        }
    }

    // The line that a load of this type hits.
    fn hit(&self, k: usize, kind: MemType, number: u64) -> Option<&CacheLine>
        requires { k < length self.now.processors }
        ensures { MatchOption result (hit_of kind k number self.now ≡ None) (λ l. hit_of kind k number self.now ≡ Some l.now) }
    {
        if is_cached(kind) {
            self.line_in(k, number)
        } else {
            None
        }
    }

    // Whether a load of this type that misses fills a line.
    fn fills(&self, k: usize, kind: MemType) -> bool
        requires { k < length self.now.processors }
        ensures { result ≡ (is_cached kind && not (cache_disabled_of self.now k)) }
    {
        is_cached(kind) && !self.cpus[k].cd()
    }

    // A load that hits no line.
    fn load_missed(&mut self, k: usize, kind: MemType, address: u64) -> u64
        requires processor { k < length self.old.processors }
        requires missed { hit_of kind k (address / 64) self.old ≡ None }
        ensures { (result, self.new) ≡ load_after kind k address self.old }
    {
        let number = address / LINE_BYTES;
        let is_filled = self.fills(k, kind);
        self.bus_read(number);
        let v = self.ram.read(address);
        if is_filled {
            self.fill_line(k, number);
        }
        v
    }

    // A load once the buffers that it empties are empty.
    fn load_after(&mut self, k: usize, kind: MemType, address: u64) -> u64
        requires { k < length self.old.processors }
        ensures { (result, self.new) ≡ load_after kind k address self.old }
    {
        match self.hit(k, kind, address / LINE_BYTES) {
            Some(line) => line.words[(address % LINE_BYTES / WORD_BYTES) as usize],
            None => self.load_missed(k, kind, address),
        }
    }

    /// Loads the word at a physical address.
    pub(crate) fn load(&mut self, k: usize, kind: MemType, address: u64) -> u64
        requires { k < length self.old.processors }
        ensures { (result, self.new) ≡ load kind k address self.old }
    {
        self.first_of_load(k, kind, address / LINE_BYTES);
        self.load_after(k, kind, address)
    }
}
