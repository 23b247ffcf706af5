ghost use Rattle.std.specs.Prelude.{◌≡◌, [], ◌∷◌, ◌++◌, OnOk};
ghost use Rattle.mt_cache.specs.Calls.{clean_line_of};
ghost use Rattle.mt_cache.specs.Lines.{without_line};
ghost use Rattle.mt_machine.specs.System.{change, lines_of};
ghost use Rattle.mt_machine.specs.Bus.{bus_read, drain_line, fill_line, make_room, with_lines};

use crate::bus::Bus;
use crate::lines;
use crate::ram::line_words;
use crate::snoops::drop_in;
use mt_cache::CacheLine;
use mt_ports::NoMemory;

const MOST_LINES: usize = 64;

impl Bus<'_> {
    /// The lines of a processor's cache, oldest first.
    pub(crate) fn lines(&self, k: usize) -> &[CacheLine]
        ensures { result.now ≡ lines_of self.now k }
    {
        match self.cpus.get(k) {
            Some(cpu) => cpu.lines(),
            None => &[],
        }
    }

    fn drop_own(&mut self, k: usize, number: u64)
        ensures { self.new ≡ change (with_lines (without_line number)) k self.old }
    {
        if let Some(cpu) = self.cpus.get_mut(k) {
            drop_in(cpu, number);
        }
    }

    // A full cache pushes out the oldest line, and its dirty words go to memory.
    fn make_room(&mut self, k: usize)
        ensures { self.new ≡ make_room k self.old }
    {
        if let Some(oldest) = lines::oldest_of_full(self.lines(k), MOST_LINES) {
            self.write_back(&oldest);
            self.drop_own(k, oldest.number);
        }
    }

    fn add_line(&mut self, k: usize, number: u64, words: [u64; 8]) -> Result<(), NoMemory>
        ensures { OnOk result (self.new ≡ change (λ p. record p { lines = p.lines ++ clean_line_of number words p.era ∷ [] }) k self.old) }
    {
        let Some(cpu) = self.cpus.get_mut(k) else {
            return Ok(());
        };
        let line = CacheLine {
            number,
            words,
            dirty: 0,
            era: cpu.era,
        };
        lines::add(&mut cpu.lines, line)
    }

    /// Fills a line of a processor's cache from memory.
    pub(crate) fn fill_line(&mut self, k: usize, number: u64) -> Result<(), NoMemory>
        ensures { OnOk result (self.new ≡ fill_line k number self.old) }
    {
        self.make_room(k);
        let words = line_words(self.layout, self.words.as_slice(), number);
        self.add_line(k, number, words)
    }

    /// Fills a line of a processor's cache as a load does: its own buffer of the line is emptied, and the line is read on the bus.
    pub fn read_and_fill(&mut self, k: usize, number: u64) -> Result<(), NoMemory>
        ensures { OnOk result (self.new ≡ fill_line k number (bus_read number (drain_line k number self.old))) }
    {
        self.drain_line(k, number);
        self.bus_read(number);
        self.fill_line(k, number)?;
        Ok(())
    }
}
