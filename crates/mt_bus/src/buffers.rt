ghost use Rattle.std.specs.Prelude.{◌≡◌, ◌<◌, [], length, slice_get, None, Some};
ghost use Rattle.std.specs.Option.{option_map_or};
ghost use Rattle.mt_cache.specs.declared.line.CacheLine.{CacheLine};
ghost use Rattle.mt_cache.specs.Lines.{find_line, without_line};
ghost use Rattle.mt_cache.specs.Calls.{handed_back, left_by_combine};
ghost use Rattle.mt_machine.specs.System.{buffers_of, change};
ghost use Rattle.mt_machine.specs.Bus.{combine, drain, drain_line, with_buffers};

use crate::bus::Bus;
use mt_cache::{Buffers, CacheLine};

impl Bus {
    fn buffer_count(&self, k: usize) -> usize
        requires { k < length self.now.processors }
        ensures { result ≡ length (buffers_of self.now k) }
    {
        self.cpus[k].buffers().lines().len()
    }

    fn buffer_at(&self, k: usize, i: usize) -> CacheLine
        requires processor { k < length self.now.processors }
        requires place { i < length (buffers_of self.now k) }
        ensures { slice_get (buffers_of self.now k) i ≡ Some result }
    {
        self.cpus[k].buffers().lines()[i]
    }

    fn clear_buffers(&mut self, k: usize)
        requires { k < length self.old.processors }
        ensures { self.new ≡ change (with_buffers (λ _. [])) k self.old }
    {
        let cpu = &mut self.cpus[k];
        *cpu.buffers_mut() = Buffers::new();
    }

    fn take_buffer(&mut self, k: usize, number: u64) -> Option<CacheLine>
        requires { k < length self.old.processors }
        ensures out { result ≡ find_line number (buffers_of self.old k) }
        ensures after { self.new ≡ change (with_buffers (without_line number)) k self.old }
    {
        let cpu = &mut self.cpus[k];
        cpu.buffers_mut().take(number)
    }

    /// Empties all buffers of a processor, the oldest first.
    pub(crate) fn drain(&mut self, k: usize)
        requires { k < length self.old.processors }
        ensures { self.new ≡ drain k self.old }
    {
        let count = self.buffer_count(k);
        if count == 0 {
            return;
        }
        for i in 0..count {
            let buffer = self.buffer_at(k, i);
            self.empty_buffer(&buffer);
        }
        self.clear_buffers(k);
    }

    /// Empties a processor's buffer of a line.
    pub(crate) fn drain_line(&mut self, k: usize, number: u64)
        requires { k < length self.old.processors }
        ensures { self.new ≡ drain_line k number self.old }
    {
        if self.buffer_count(k) == 0 {
            return;
        }
        if let Some(buffer) = self.take_buffer(k, number) {
            self.empty_buffer(&buffer);
        }
    }

    // Combines a word into the buffers, and hands back a buffer that must be emptied.
    fn join(&mut self, k: usize, number: u64, word: u8, v: u64) -> Option<CacheLine>
        requires processor { k < length self.old.processors }
        requires word { word < 8 }
        ensures out { result ≡ option_map_or (λ p. handed_back number word v p.era p.buffers) (slice_get self.old.processors k) None }
        ensures after { self.new ≡ change (λ p. record p { buffers = left_by_combine number word v p.era p.buffers }) k self.old }
    {
        let cpu = &mut self.cpus[k];
        let era = cpu.era();
        cpu.buffers_mut().combine(number, word, v, era)
    }

    /// Combines a word into a processor's buffers, and empties the buffer that is handed back: the oldest of
    /// four, where one is added, or the one that then has all its words.
    pub(crate) fn combine(&mut self, k: usize, number: u64, word: u8, v: u64)
        requires processor { k < length self.old.processors }
        requires word { word < 8 }
        ensures { self.new ≡ combine k number word v self.old }
    {
        if let Some(buffer) = self.join(k, number, word, v) {
            self.empty_buffer(&buffer);
        }
    }
}
