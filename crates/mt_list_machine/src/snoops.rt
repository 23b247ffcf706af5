ghost use Rattle.std.specs.Prelude.{◌≡◌, ◌<◌, length, map, if◌then◌else◌};
ghost use Rattle.mt_cache.specs.Lines.{change_line, clean_line, without_line};
ghost use Rattle.mt_machine.specs.Memory.{write_back};
ghost use Rattle.mt_machine.specs.Bus.{bus_read, empty_buffer, invalidate, invalidate_others, others_from, with_lines, write_back_others};
ghost use Rattle.mt_laws.specs.Parts.{written_back};
ghost use Rattle.mt_list_machine.specs.Parts.{memory};

use crate::bus::Bus;
use crate::cpu::Cpu;
use crate::lines::{clean_line, drop_line};
use crate::ram::{write_back, write_back_of};
use mt_cache::CacheLine;
use mt_ram::Ram;

fn clean_in(cpu: &mut Cpu, number: u64)
    ensures { cpu.new ≡ with_lines (change_line number clean_line) cpu.old }
{
    clean_line(cpu.lines.as_mut_slice(), number);
}

/// Drops the line of this number from a processor's cache.
pub(crate) fn drop_in(cpu: &mut Cpu, number: u64)
    ensures { cpu.new ≡ with_lines (without_line number) cpu.old }
{
    drop_line(&mut cpu.lines, number);
}

// The own copy stays.
fn drop_unless(cpu: &mut Cpu, number: u64, own: bool)
    ensures { cpu.new ≡ (if own then cpu.old else with_lines (without_line number) cpu.old) }
{
    if !own {
        drop_in(cpu, number);
    }
}

// Writes the dirty words of a line in these caches to memory.
fn write_back_all(layout: &Ram, words: &mut [u64], cpus: &[Cpu], number: u64)
    ensures { memory layout.now words.new ≡ written_back number (memory layout.now words.old) cpus.now }
{
    for i in 0..cpus.len() {
        write_back_of(layout, words, cpus[i].lines(), number);
    }
}

fn clean_all(cpus: &mut [Cpu], number: u64)
    ensures { cpus.new ≡ map (with_lines (change_line number clean_line)) cpus.old }
{
    for i in 0..cpus.len() {
        clean_in(&mut cpus[i], number);
    }
}

fn drop_all(cpus: &mut [Cpu], number: u64)
    ensures { cpus.new ≡ map (with_lines (without_line number)) cpus.old }
{
    for i in 0..cpus.len() {
        drop_in(&mut cpus[i], number);
    }
}

fn drop_others(cpus: &mut [Cpu], k: usize, number: u64)
    ensures { cpus.new ≡ others_from 0 k (with_lines (without_line number)) cpus.old }
{
    for i in 0..cpus.len() {
        drop_unless(&mut cpus[i], number, i == k);
    }
}

impl Bus<'_> {
    /// Reads a line on the bus: each cache's dirty words of it go to memory, and the copies stay.
    pub(crate) fn bus_read(&mut self, number: u64)
        ensures { self.new ≡ bus_read number self.old }
    {
        let words = self.words.as_mut_slice();
        write_back_all(self.layout, words, self.cpus.as_slice(), number);
        clean_all(self.cpus.as_mut_slice(), number);
    }

    /// Drops the copies of a line in all caches.
    pub(crate) fn invalidate(&mut self, number: u64)
        ensures { self.new ≡ invalidate number self.old }
    {
        drop_all(self.cpus.as_mut_slice(), number);
    }

    /// Drops the copies of a line in the caches of all processors but one.
    pub(crate) fn invalidate_others(&mut self, k: usize, number: u64)
        ensures { self.new ≡ invalidate_others k number self.old }
    {
        drop_others(self.cpus.as_mut_slice(), k, number);
    }

    /// Writes the dirty words of a line in the caches of all processors but one to memory.
    pub(crate) fn write_back_others(&mut self, k: usize, number: u64)
        requires { k < length self.old.processors }
        ensures { self.new ≡ write_back_others k number self.old }
    {
        let (before, _) = self.cpus.as_slice().split_at(k);
        let (_, behind) = self.cpus.as_slice().split_at(k + 1);
        let words = self.words.as_mut_slice();
        write_back_all(self.layout, words, before, number);
        write_back_all(self.layout, words, behind, number);
    }

    /// Writes the dirty words of a line to memory.
    pub(crate) fn write_back(&mut self, line: &CacheLine)
        ensures { self.new ≡ record self.old { memory = write_back self.old.memory line.now } }
    {
        write_back(self.layout, self.words.as_mut_slice(), line);
    }

    /// Empties a buffer: its line is read on the bus and dropped by all caches, and its written words are stored in memory.
    pub(crate) fn empty_buffer(&mut self, buffer: &CacheLine)
        ensures { self.new ≡ empty_buffer self.old buffer.now }
    {
        self.bus_read(buffer.number);
        self.invalidate(buffer.number);
        self.write_back(buffer);
    }
}
