ghost use Rattle.std.specs.Prelude.{◌≡◌, ◌<◌, [], ◌∷◌, ◌++◌, length, None};
ghost use Rattle.std.specs.Option.{option_map, option_map_or};
ghost use Rattle.mt_cache.specs.Lines.{find_line, oldest_of_full};
ghost use Rattle.mt_cache.specs.Calls.{clean_line_of, with_room};
ghost use Rattle.mt_machine.specs.Memory.{write_back};
ghost use Rattle.mt_machine.specs.System.{change, lines_of};
ghost use Rattle.mt_machine.specs.Bus.{fill_line};

use crate::bus::Bus;
use crate::words::{line_words, write_back};
use mt_cache::Cache;
use mt_ram::Ram;

// Writes the dirty words of the line that a fill pushes out of a cache to memory, and says which one that is.
fn write_back_oldest(cache: &Cache, ram: &mut Ram) -> Option<u64>
    ensures memory { ram.new ≡ option_map_or (λ l. write_back ram.old l) (oldest_of_full 64 cache.now) ram.old }
    ensures number { result ≡ option_map (λ l. l.number) (oldest_of_full 64 cache.now) }
{
    match cache.oldest_of_full() {
        Some(oldest) => {
            write_back(ram, oldest);
            Some(oldest.number)
        }
        None => None,
    }
}

impl Bus {
    // Adds a clean line to a processor's cache, which drops its oldest where it was full.
    fn add_line(&mut self, k: usize, number: u64, words: [u64; 8])
        requires processor { k < length self.old.processors }
        requires absent { find_line number (lines_of self.old k) ≡ None }
        ensures { self.new ≡ change (λ p. record p { lines = with_room 64 p.lines ++ clean_line_of number words p.era ∷ [] }) k self.old }
    {
        self.holders.add(k, number);
        let cpu = &mut self.cpus[k];
        let era = cpu.era();
        cpu.cache_mut().fill(number, words, era);
    }

    /// Fills a line that a processor's cache does not have, from memory. A full cache first writes the dirty
    /// words of its oldest line to memory.
    pub(crate) fn fill_line(&mut self, k: usize, number: u64)
        requires processor { k < length self.old.processors }
        requires absent { find_line number (lines_of self.old k) ≡ None }
        ensures { self.new ≡ fill_line k number self.old }
    {
        let oldest = write_back_oldest(self.cpus[k].cache(), &mut self.ram);
        let words = line_words(&self.ram, number);
        self.add_line(k, number, words);
        if let Some(dropped) = oldest {
            self.look_at(k, dropped);
        }
    }
}
