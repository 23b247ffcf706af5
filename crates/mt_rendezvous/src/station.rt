// The station, its root and its passes.
ghost use Rattle.std.specs.Prelude.{◌≡◌, ◌+◌, ◌<◌, false, length, IsTrue};
ghost use Rattle.mt_machine.specs.declared.phase.Phase.TheVariants.{Restored};
ghost use Rattle.mt_machine.specs.declared.go.Go.TheVariants.{Pending, Given, Cancelled};
ghost use Rattle.mt_machine.specs.Machine.{own_step};
ghost use Rattle.mt_cpu.specs.Steps.{is_local};
ghost use Rattle.mt_rendezvous.specs.Station.{code};
ghost use Rattle.mt_rendezvous.specs.Plays.{own_event, written};

use crate::crew::Coordinator;
use crate::view::{Key, Meeting, Turn, View};
use atomic_table::{Seat, Table};
use mt_cpu::{Cpu, is_local};
use mt_machine::{Event, Phase};
use mt_ram::Ram;
use mt_regs::RegFile;
use std::alloc::Global;

// What the root adds to the first word, to give the go or to cancel.
const GO: u64 = 1;

pub(crate) const CANCEL: u64 = 0x1_0000_0000;

/// The words of one update: the two counts, a phase word for each processor, and the words of the gathered memory.
#[derive(Drop)]
pub struct Station {
    pub table: Table<(), View, Key, Meeting, Global>,
    pub count: u64,
    pub ghost counted: { length table.shared.key.cpus.value.items ≡ count },
    pub ghost wide: { table.shared.table_id.words ≡ count + 2 + length table.shared.key.ram.value.words },
    pub ghost few: { count < 65536 },
    pub ghost few_words: { count + 2 + length table.shared.key.ram.value.words < 18446744073709551616 },
    pub ghost no_slots: { table.shared.table_id.slots ≡ 0 },
}

/// What a thread carries its processor in.
#[derive(Drop)]
pub struct Pass {
    pub seat: Seat<(), View>,
    pub number: u64,
    pub shown: Option<u32>,
    pub ghost few: { number < 65536 },
    pub ghost told: { shown ≡ seat.me.0.shown },
    pub ghost no_root: { seat.me.0.root ≡ false },
}

/// The coordinator's seat. It has the processors that aren't given away, and says whether go was given.
#[derive(Drop)]
pub struct Root {
    pub seat: Seat<(), View>,
}

/// A processor with its pass.
#[derive(Drop)]
pub struct Attendee {
    pub cpu: Cpu,
    pub pass: Pass,
}

/// How an update ended for one processor.
#[derive(Clone, Copy, Debug, PartialEq, Eq)]
pub enum Outcome {
    Complete,
    Cancelled,
}

// The number of a phase that an event of a processor alone leads to.
fn code(phase: Phase) -> u64
    ensures { result ≡ code phase }
{
    match phase {
        Phase::NoFill => 1,
        Phase::Flushed => 2,
        Phase::TlbFlushed => 3,
        Phase::Enabled => 4,
        Phase::Flushed2 => 5,
        Phase::TlbFlushed2 => 6,
        Phase::Normal => 7,
        Phase::Restored => 8,
        Phase::Writing(i) => 9 + i as u64,
        _ => 0,
    }
}

// The word of memory that an event writes.
fn written(e: Event) -> Option<(u64, u64)>
    ensures { result ≡ written e }
{
    match e {
        Event::WriteBack { address, value } => Some((address, value)),
        _ => None,
    }
}

impl Coordinator<Station> for Root {
    ghost use Rattle.mt_rendezvous.specs.InStation.{LeadsIn};

    ghost has_cancelled = { λ s r. LeadsIn s r Cancelled };
}

impl Root {
    ghost use Rattle.mt_rendezvous.specs.InStation.{AddsToFirst, LeadsIn, held_by};

    /// Gives the go, once. Its addition to word 0 is the event Go.
    pub fn go(&mut self, station: &Station)
        requires { LeadsIn station.now self.old Pending }
        ensures leads { LeadsIn station.now self.new Given }
        ensures held { held_by self.new ≡ held_by self.old }
        ensures event { AddsToFirst 1 self.old self.new }
    {
        station
            .table
            .shared
            .fetch_add::<Turn>(&mut self.seat, 0, GO);
    }

    /// Cancels, once, in place of the go. Its addition to word 0 is the event Cancel.
    pub fn cancel(&mut self, station: &Station)
        requires { LeadsIn station.now self.old Pending }
        ensures leads { LeadsIn station.now self.new Cancelled }
        ensures held { held_by self.new ≡ held_by self.old }
        ensures event { AddsToFirst 4294967296 self.old self.new }
    {
        station
            .table
            .shared
            .fetch_add::<Turn>(&mut self.seat, 0, CANCEL);
    }
}

impl Pass {
    ghost use Rattle.mt_rendezvous.specs.InStation.{HasArrivedAgain, HasPassed, goal_at, shown_to, start_at, windows_at};

    /// The number of its processor.
    pub fn processor(&self) -> u32
        ensures { result ≡ self.now.number }
    {
        self.number as u32
    }

    /// The second count that its last load of it showed. There is none where it has made no such load.
    pub fn shown(&self) -> Option<u32>
        ensures { result ≡ shown_to self.now }
    {
        self.shown
    }

    // Does the processor's next event between the barriers. Its one store, of the word of memory that is written
    // back or else of the own phase word, is that event.
    fn work(&mut self, station: &Station, ram: &Ram, goal: &RegFile, cpu: &mut Cpu)
        requires passed { HasPassed station.now self.old cpu.old }
        requires local { IsTrue (is_local cpu.old.phase) }
        requires goal { goal.now ≡ goal_at station.now }
        requires windows { ram.now.windows ≡ windows_at station.now }
        ensures passed { HasPassed station.now self.new cpu.new }
        ensures number { self.new.number ≡ self.old.number }
        ensures becomes { cpu.new ≡ own_step (goal_at station.now) (own_event (start_at station.now) cpu.old) cpu.old }
    {
        let e = cpu.local(goal);
        match written(e) {
            Some((address, value)) => {
                let Some(i) = ram.place(address) else {
                    unreachable!()
                };
                let word = station.count as usize + 2 + i;
                station
                    .table
                    .shared
                    .store::<Turn>(&mut self.seat, word, value);
            }
            None => {
                let word = self.number as usize + 2;
                station
                    .table
                    .shared
                    .store::<Turn>(&mut self.seat, word, code(cpu.phase()));
            }
        }
    }

    // Does all events between the barriers, which are so many as are left to do.
    fn work_all(&mut self, station: &Station, ram: &Ram, goal: &RegFile, cpu: &mut Cpu)
        requires passed { HasPassed station.now self.old cpu.old }
        requires goal { goal.now ≡ goal_at station.now }
        requires windows { ram.now.windows ≡ windows_at station.now }
        ensures passed { HasPassed station.now self.new cpu.new }
        ensures number { self.new.number ≡ self.old.number }
        ensures restored { cpu.new.phase ≡ Restored }
    {
        while is_local(cpu.phase()) {
            self.work(station, ram, goal, cpu);
        }
    }

    // Adds to word 1: the event ArriveAgain.
    fn arrive_again(&mut self, station: &Station, cpu: &mut Cpu)
        requires passed { HasPassed station.now self.old cpu.old }
        requires restored { cpu.old.phase ≡ Restored }
        ensures arrived { HasArrivedAgain station.now self.new cpu.new }
        ensures number { self.new.number ≡ self.old.number }
    {
        station.table.shared.fetch_add::<Turn>(&mut self.seat, 1, 1);
        cpu.shift(Event::ArriveAgain);
    }

    // Does all that lies between the barriers. It waits for nobody, so it terminates.
    pub(crate) fn change(&mut self, station: &Station, ram: &Ram, goal: &RegFile, cpu: &mut Cpu)
        requires passed { HasPassed station.now self.old cpu.old }
        requires goal { goal.now ≡ goal_at station.now }
        requires windows { ram.now.windows ≡ windows_at station.now }
        ensures arrived { HasArrivedAgain station.now self.new cpu.new }
        ensures number { self.new.number ≡ self.old.number }
    {
        self.work_all(station, ram, goal, cpu);
        self.arrive_again(station, cpu);
    }
}
