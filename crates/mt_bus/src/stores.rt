ghost use Rattle.std.specs.Prelude.{◌≡◌, ◌<◌, ◌/◌, length, None};
ghost use Rattle.mt_cache.specs.Lines.{change_line, find_line};
ghost use Rattle.mt_cache.specs.Calls.{write_word};
ghost use Rattle.mt_machine.specs.Memory.{word_of};
ghost use Rattle.mt_machine.specs.System.{change, lines_of};
ghost use Rattle.mt_machine.specs.Bus.{with_lines};
ghost use Rattle.mt_machine.specs.Access.{first_of_store, store, store_after, store_filling, store_hit, store_past, store_uncached};

use crate::bus::Bus;
use mt_cache::Cache;
use mt_kinds::{LINE_BYTES, MemType, WORD_BYTES};

// Writes a word into a cache's copy of its line, if it has one.
fn write_copy(cache: &mut Cache, address: u64, v: u64, dirty: bool)
    ensures { cache.new ≡ change_line (address / 64) (write_word (word_of address) v dirty) cache.old }
{
    if let Some(i) = cache.find(address / LINE_BYTES) {
        cache.write(i, (address % LINE_BYTES / WORD_BYTES) as u8, v, dirty);
    }
}

impl Bus {
    fn write_own(&mut self, k: usize, address: u64, v: u64, dirty: bool)
        requires { k < length self.old.processors }
        ensures { self.new ≡ change (with_lines (change_line (address / 64) (write_word (word_of address) v dirty))) k self.old }
    {
        let cpu = &mut self.cpus[k];
        write_copy(cpu.cache_mut(), address, v, dirty);
    }

    fn first_of_store(&mut self, k: usize, kind: MemType, number: u64)
        requires { k < length self.old.processors }
        ensures { self.new ≡ first_of_store kind k number self.old }
    {
        match kind {
            MemType::UC => self.drain(k),
            MemType::WC => {}
            MemType::WT | MemType::WP | MemType::WB => self.drain_line(k, number),
        }
    }

    // A store to write-back memory that hits a line: the own cache takes it over.
    fn store_hit(&mut self, k: usize, address: u64, v: u64)
        requires { k < length self.old.processors }
        ensures { self.new ≡ store_hit k address v self.old }
    {
        self.take_over(k, address / LINE_BYTES);
        self.write_own(k, address, v, true);
    }

    // One that misses and fills the line.
    fn store_filling(&mut self, k: usize, address: u64, v: u64)
        requires processor { k < length self.old.processors }
        requires absent { find_line (address / 64) (lines_of self.old k) ≡ None }
        ensures { self.new ≡ store_filling k address v self.old }
    {
        let number = address / LINE_BYTES;
        self.read_and_drop_others(k, number);
        self.fill_line(k, number);
        self.write_own(k, address, v, true);
    }

    // One that goes to memory past the own cache; no other cache keeps the line.
    fn store_past(&mut self, k: usize, address: u64, v: u64)
        requires { k < length self.old.processors }
        ensures { self.new ≡ store_past k address v self.old }
    {
        self.read_and_drop_others(k, address / LINE_BYTES);
        self.ram.write(address, v);
    }

    // One after which no cache keeps the line.
    fn store_uncached(&mut self, address: u64, v: u64)
        ensures { self.new ≡ store_uncached address v self.old }
    {
        self.read_and_drop(address / LINE_BYTES);
        self.ram.write(address, v);
    }

    fn store_through(&mut self, k: usize, address: u64, v: u64)
        requires { k < length self.old.processors }
        ensures { self.new ≡ store_after MemType.WT k address v self.old }
    {
        self.store_past(k, address, v);
        self.write_own(k, address, v, false);
    }

    fn store_back(&mut self, k: usize, address: u64, v: u64)
        requires { k < length self.old.processors }
        ensures { self.new ≡ store_after MemType.WB k address v self.old }
    {
        if self.line_in(k, address / LINE_BYTES).is_some() {
            self.store_hit(k, address, v);
        } else if self.cpus[k].cd() {
            self.store_past(k, address, v);
        } else {
            self.store_filling(k, address, v);
        }
    }

    // A store once the buffers that it empties are empty.
    fn store_after(&mut self, k: usize, kind: MemType, address: u64, v: u64)
        requires { k < length self.old.processors }
        ensures { self.new ≡ store_after kind k address v self.old }
    {
        match kind {
            MemType::UC | MemType::WP => self.store_uncached(address, v),
            MemType::WC => {
                let word = (address % LINE_BYTES / WORD_BYTES) as u8;
                self.combine(k, address / LINE_BYTES, word, v);
            }
            MemType::WT => self.store_through(k, address, v),
            MemType::WB => self.store_back(k, address, v),
        }
    }

    /// Stores a word at a physical address.
    pub(crate) fn store(&mut self, k: usize, kind: MemType, address: u64, v: u64)
        requires { k < length self.old.processors }
        ensures { self.new ≡ store kind k address v self.old }
    {
        self.first_of_store(k, kind, address / LINE_BYTES);
        self.store_after(k, kind, address, v);
    }
}
