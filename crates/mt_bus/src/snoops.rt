ghost use Rattle.std.specs.Prelude.{◌≡◌, ◌<◌, IsTrue, length, if◌then◌else◌};
ghost use Rattle.mt_cache.specs.declared.line.CacheLine.{CacheLine};
ghost use Rattle.mt_cache.specs.Lines.{change_line, clean_line, without_line};
ghost use Rattle.mt_machine.specs.Memory.{write_back_of};
ghost use Rattle.mt_machine.specs.Bus.{bus_read, empty_buffer, invalidate, invalidate_others, with_lines, write_back_others};
ghost use Rattle.mt_bus.specs.Holders.{IsNowhereElse};

use crate::bus::Bus;
use crate::copies::{clean_copy, drop_copy};
use crate::holders::BITS;
use crate::words::write_back;
use mt_cache::CacheLine;
use mt_cpu::Cpu;
use mt_ram::Ram;

fn clean_in(cpu: &mut Cpu, ram: &mut Ram, number: u64)
    ensures cpu { cpu.new ≡ with_lines (change_line number clean_line) cpu.old }
    ensures ram { ram.new ≡ write_back_of number ram.old cpu.old.lines }
{
    clean_copy(cpu.cache_mut(), ram, number);
}

fn drop_in(cpu: &mut Cpu, ram: &mut Ram, number: u64)
    ensures cpu { cpu.new ≡ with_lines (without_line number) cpu.old }
    ensures read { cpu.new ≡ with_lines (without_line number) (with_lines (change_line number clean_line) cpu.old) }
    ensures ram { ram.new ≡ write_back_of number ram.old cpu.old.lines }
{
    drop_copy(cpu.cache_mut(), ram, number);
}

// The own copy stays, clean.
fn clean_or_drop_in(cpu: &mut Cpu, ram: &mut Ram, number: u64, own: bool)
    ensures cpu { cpu.new ≡ (if own then with_lines (change_line number clean_line) cpu.old else with_lines (without_line number) (with_lines (change_line number clean_line) cpu.old)) }
    ensures ram { ram.new ≡ write_back_of number ram.old cpu.old.lines }
{
    if own {
        clean_in(cpu, ram, number);
    } else {
        drop_in(cpu, ram, number);
    }
}

// The own copy stays as it is.
fn drop_unless(cpu: &mut Cpu, ram: &mut Ram, number: u64, own: bool)
    ensures cpu { cpu.new ≡ (if own then cpu.old else with_lines (without_line number) cpu.old) }
    ensures ram { ram.new ≡ (if own then ram.old else write_back_of number ram.old cpu.old.lines) }
{
    if !own {
        drop_in(cpu, ram, number);
    }
}

impl Bus {
    // Whether no cache but that of one processor may have a line.
    #[inline(always)]
    fn is_nowhere_else(&self, k: usize, number: u64) -> bool
        requires { k < length self.now.processors }
        ensures { IsTrue result → IsNowhereElse k number self.now.processors }
    {
        self.cpus.len() <= BITS && self.holders.only(k, number)
    }

    /// Looks whether the cache of a processor may still have a line.
    pub(crate) fn look_at(&mut self, k: usize, number: u64)
        requires { k < length self.old.processors }
        ensures { self.new ≡ self.old }
    {
        if !self.cpus[k].cache().may_have(number) {
            self.holders.remove(k, number);
        }
    }

    /// Reads a line on the bus: each cache's dirty words of it go to memory, and the copies stay.
    pub(crate) fn bus_read(&mut self, number: u64)
        ensures { self.new ≡ bus_read number self.old }
    {
        let mut i = self.holders.next(0, number);
        'holders: while i < self.cpus.len() {
            clean_in(&mut self.cpus[i], &mut self.ram, number);
            self.look_at(i, number);
            i = self.holders.next(i + 1, number);
        }
    }

    /// Reads a line on the bus, and drops the copies of it in all caches.
    pub(crate) fn read_and_drop(&mut self, number: u64)
        ensures { self.new ≡ invalidate number (bus_read number self.old) }
    {
        let mut i = self.holders.next(0, number);
        'holders: while i < self.cpus.len() {
            drop_in(&mut self.cpus[i], &mut self.ram, number);
            self.look_at(i, number);
            i = self.holders.next(i + 1, number);
        }
    }

    /// Reads a line on the bus, and drops the copies of it in the caches of all processors but one.
    pub(crate) fn read_and_drop_others(&mut self, k: usize, number: u64)
        requires { k < length self.old.processors }
        ensures { self.new ≡ invalidate_others k number (bus_read number self.old) }
    {
        let mut i = self.holders.next(0, number);
        'holders: while i < self.cpus.len() {
            clean_or_drop_in(&mut self.cpus[i], &mut self.ram, number, i == k);
            self.look_at(i, number);
            i = self.holders.next(i + 1, number);
        }
    }

    // Takes a line from each other cache that may have it.
    fn take_from_each(&mut self, k: usize, number: u64)
        requires { k < length self.old.processors }
        ensures { self.new ≡ invalidate_others k number (write_back_others k number self.old) }
    {
        let mut i = self.holders.next(0, number);
        'holders: while i < self.cpus.len() {
            drop_unless(&mut self.cpus[i], &mut self.ram, number, i == k);
            self.look_at(i, number);
            i = self.holders.next(i + 1, number);
        }
    }

    /// Takes a line over: the dirty words of it in the caches of all processors but one go to memory, and
    /// their copies are dropped.
    pub(crate) fn take_over(&mut self, k: usize, number: u64)
        requires { k < length self.old.processors }
        ensures { self.new ≡ invalidate_others k number (write_back_others k number self.old) }
    {
        // most stores end here
        if self.is_nowhere_else(k, number) {
            return;
        }
        self.take_from_each(k, number);
    }

    /// Empties a buffer: its line is read on the bus and dropped by all caches, and its written words
    /// are stored in memory.
    pub(crate) fn empty_buffer(&mut self, buffer: &CacheLine)
        ensures { self.new ≡ empty_buffer self.old buffer.now }
    {
        self.read_and_drop(buffer.number);
        write_back(&mut self.ram, buffer);
    }
}
