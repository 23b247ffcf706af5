ghost use Rattle.std.specs.Prelude.{◌≡◌, ◌<◌, [], OnOk, Some, length, slice_get};
ghost use Rattle.mt_cache.specs.Lines.{combined_with, without_line};
ghost use Rattle.mt_machine.specs.System.{buffers_of, change};
ghost use Rattle.mt_machine.specs.Bus.{combine, drain, drain_line, empty_buffer, empty_if_whole, make_buffer_room, with_buffers};

use crate::bus::Bus;
use crate::cpu::Cpu;
use crate::lines;
use mt_cache::CacheLine;
use mt_ports::NoMemory;

const MOST_BUFFERS: usize = 4;

fn drop_buffer_in(cpu: &mut Cpu, number: u64)
    ensures { cpu.new ≡ with_buffers (without_line number) cpu.old }
{
    lines::drop_line(&mut cpu.buffers, number);
}

impl Bus<'_> {
    fn buffers(&self, k: usize) -> &[CacheLine]
        ensures { result.now ≡ buffers_of self.now k }
    {
        match self.cpus.get(k) {
            Some(cpu) => cpu.buffers(),
            None => &[],
        }
    }

    fn buffer_at(&self, k: usize, i: usize) -> CacheLine
        requires { i < length (buffers_of self.now k) }
        ensures { slice_get (buffers_of self.now k) i ≡ Some result }
    {
        self.buffers(k)[i]
    }

    fn clear_buffers(&mut self, k: usize)
        ensures { self.new ≡ change (with_buffers (λ _. [])) k self.old }
    {
        if let Some(cpu) = self.cpus.get_mut(k) {
            cpu.buffers.clear();
        }
    }

    fn drop_buffer(&mut self, k: usize, number: u64)
        ensures { self.new ≡ change (with_buffers (without_line number)) k self.old }
    {
        if let Some(cpu) = self.cpus.get_mut(k) {
            drop_buffer_in(cpu, number);
        }
    }

    /// Empties all buffers of a processor, the oldest first.
    pub(crate) fn drain(&mut self, k: usize)
        ensures { self.new ≡ drain k self.old }
    {
        for i in 0..self.buffers(k).len() {
            let buffer = self.buffer_at(k, i);
            self.empty_buffer(&buffer);
        }
        self.clear_buffers(k);
    }

    // Empties a buffer that a processor has, and takes it away.
    fn empty_and_drop(&mut self, k: usize, number: u64, buffer: &CacheLine)
        ensures { self.new ≡ change (with_buffers (without_line number)) k (empty_buffer self.old buffer.now) }
    {
        self.empty_buffer(buffer);
        self.drop_buffer(k, number);
    }

    /// Empties a processor's buffer of a line.
    pub(crate) fn drain_line(&mut self, k: usize, number: u64)
        ensures { self.new ≡ drain_line k number self.old }
    {
        if let Some(buffer) = lines::find_line(self.buffers(k), number) {
            self.empty_and_drop(k, number, &buffer);
        }
    }

    // If a new buffer is wanted and there are four, the oldest is emptied first.
    fn make_buffer_room(&mut self, k: usize, number: u64)
        ensures { self.new ≡ make_buffer_room k number self.old }
    {
        if lines::find_line(self.buffers(k), number).is_some() {
            return;
        }
        if let Some(oldest) = lines::oldest_of_full(self.buffers(k), MOST_BUFFERS) {
            self.empty_and_drop(k, oldest.number, &oldest);
        }
    }

    fn join(&mut self, k: usize, number: u64, word: u8, v: u64) -> Result<(), NoMemory>
        requires { word < 8 }
        ensures { OnOk result (self.new ≡ change (λ p. record p { buffers = combined_with number word v p.era p.buffers }) k self.old) }
    {
        match self.cpus.get_mut(k) {
            Some(cpu) => lines::combine(&mut cpu.buffers, number, word, v, cpu.era),
            None => Ok(()),
        }
    }

    // The buffer of a line is emptied once its eight words are written.
    fn empty_if_whole(&mut self, k: usize, number: u64)
        ensures { self.new ≡ empty_if_whole k number self.old }
    {
        if let Some(buffer) = lines::find_line(self.buffers(k), number)
            && buffer.dirty == 0xff
        {
            self.drain_line(k, number);
        }
    }

    /// Combines a word into a processor's buffers.
    pub(crate) fn combine(
        &mut self,
        k: usize,
        number: u64,
        word: u8,
        v: u64,
    ) -> Result<(), NoMemory>
        requires { word < 8 }
        ensures { OnOk result (self.new ≡ combine k number word v self.old) }
    {
        self.make_buffer_room(k, number);
        self.join(k, number, word, v)?;
        self.empty_if_whole(k, number);
        Ok(())
    }
}
