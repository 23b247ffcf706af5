// A station is made, and closed.
ghost use Rattle.std.specs.Prelude.{◌≡◌, ℕ, ◌+◌, ◌<◌, ◌≤◌, [], drop, length, slice_get, None, Some, IfOk, IfErr, vec_len, vec_capacity};
ghost use Rattle.std.specs.Mem.Slots.{IsFull, slots_items, slots_len};
ghost use Rattle.mt_machine.specs.declared.go.Go.TheVariants.{Pending};
ghost use Rattle.mt_rendezvous.specs.Station.{Begins, both};
ghost use Rattle.mt_rendezvous.specs.Calls.{gathered};
ghost use Rattle.mt_rendezvous.specs.InStation.{AllNewIn, EndsIn, HoldsOneIn, IsAsGathered, IsGatheredIn, IsNewIn, IsRootIn, LeadsIn, OffersIn};
ghost use Rattle.mt_rendezvous.specs.InStation.{held_by, pass_view, root_view, start_at, windows_at};

use crate::crew::{Refusal, open, room};
use crate::station::{Attendee, Pass, Root, Station};
use crate::view::HandsOver;
use atomic_table::Closed;
use mt_cpu::Cpu;
use mt_ram::Ram;
use mt_regs::RegFile;
use std::alloc::Global;

// The root's next processor goes to a new pass.
fn give_away(station: &Station, root: &mut Root, cpu: Cpu, i: usize) -> Attendee
    requires leads { LeadsIn station.now root.old Pending }
    requires offers { OffersIn station.now i root.old }
    requires first { IsAsGathered station.now i cpu }
    ensures leads { LeadsIn station.now root.new Pending }
    ensures offers { OffersIn station.now (i + 1) root.new }
    ensures shown { result.pass.shown ≡ None }
    ensures attends { IsNewIn station.now i result }
{
    let seat = station.table.shared.split_seat::<HandsOver>(&mut root.seat);
    Attendee {
        cpu,
        pass: Pass {
            seat,
            number: i as u64,
            shown: None,
        },
    }
}

// The root gives these away, which are the first ones, in their order.
fn give_all(station: &Station, root: &mut Root, cpus: &mut Vec<Cpu>, attendees: &mut Vec<Attendee>)
    requires leads { LeadsIn station.now root.old Pending }
    requires offers { OffersIn station.now 0 root.old }
    requires first { (k : ℕ) (c : _) → slice_get cpus.old.items k ≡ Some c → IsAsGathered station.now k c }
    requires room { length cpus.old.items ≤ vec_capacity attendees.old }
    requires empty { attendees.old.items ≡ [] }
    ensures leads { LeadsIn station.now root.new Pending }
    ensures offers { OffersIn station.now (length cpus.old.items) root.new }
    ensures count { length attendees.new.items ≡ length cpus.old.items }
    ensures room { vec_capacity attendees.new ≡ vec_capacity attendees.old }
    ensures each { AllNewIn station.now attendees.new.items }
{
    let Some(cpu) = cpus.pop() else {
        return;
    };
    let i = cpus.len();
    give_all(station, root, cpus, attendees);
    let attendee = give_away(station, root, cpu, i);
    attendees.push_reserved(attendee);
}

// Does what `Station::gather` does. If an allocation fails, the refusal comes back too.
pub(crate) fn gather_station(
    alloc: Global,
    cpus: Vec<Cpu>,
    ram: &Ram,
    goal: &RegFile,
) -> Result<(Station, Root, Vec<Attendee>), (Vec<Cpu>, Refusal)>
    requires some { 0 < vec_len cpus }
    requires few { vec_len cpus ≤ 16 }
    requires begins { Begins (gathered cpus.items ram.now goal.now) }
    ensures gathered { IfOk result (λ t. IsGatheredIn (gathered cpus.items ram.now goal.now) t.0 t.1 t.2.items) }
    ensures empty { IfOk result (λ t. held_by t.1 ≡ []) }
    ensures refused { IfErr result (λ e. e.0.items ≡ cpus.items) }
{
    let mut attendees = match room(alloc, cpus.len()) {
        Ok(room) => room,
        Err(refusal) => return Err((cpus, refusal)),
    };
    let (station, mut root) = match open(alloc, &cpus, ram, goal) {
        Ok(opened) => opened,
        Err(refusal) => return Err((cpus, refusal)),
    };
    let mut cpus = cpus;
    give_all(&station, &mut root, &mut cpus, &mut attendees);
    Ok((station, root, attendees))
}

impl Station {
    /// Makes the station of these processors, this memory and this goal. Attendee k has processor k.
    ///
    /// # Errors
    ///
    /// An allocation fails; the processors come back. No clause excludes an error for another reason.
    pub fn gather(
        alloc: Global,
        cpus: Vec<Cpu>,
        ram: &Ram,
        goal: &RegFile,
    ) -> Result<(Station, Root, Vec<Attendee>), Vec<Cpu>>
        requires some { 0 < vec_len cpus }
        requires few { vec_len cpus ≤ 16 }
        requires begins { Begins (gathered cpus.items ram.now goal.now) }
        ensures root { IfOk result (λ t. LeadsIn t.0 t.1 Pending) }
        ensures empty { IfOk result (λ t. held_by t.1 ≡ []) }
        ensures key { IfOk result (λ t. start_at t.0 ≡ gathered cpus.items ram.now goal.now) }
        ensures count { IfOk result (λ t. length t.2.items ≡ length cpus.items) }
        ensures attendees { IfOk result (λ t. AllNewIn t.0 t.2.items) }
        ensures refused { IfErr result (λ v. v.items ≡ cpus.items) }
    {
        match gather_station(alloc, cpus, ram, goal) {
            Ok(made) => Ok(made),
            Err((cpus, refusal)) => {
                refusal.spend();
                Err(cpus)
            }
        }
    }
}

impl Root {
    /// Takes the pass back, and returns its processor.
    pub fn take_back(&mut self, station: &Station, a: Attendee) -> Cpu
        requires root { IsRootIn station.now self.old }
        requires pass { HoldsOneIn station.now a }
        ensures root { IsRootIn station.now self.new }
        ensures held { root_view self.new ≡ both (root_view self.old) (pass_view a.pass) }
        ensures cpu { result ≡ a.cpu }
    {
        let Attendee { cpu, pass } = a;
        let Pass {
            seat,
            number: _,
            shown: _,
        } = pass;
        station
            .table
            .shared
            .join_seat::<HandsOver>(&mut self.seat, seat);
        cpu
    }
}

// Puts the words from a place on into memory.
fn put_back(words: &mut [u64], closed: &Closed<(), Global>, first: usize)
    requires full { IsFull closed.now.words }
    requires all { first + length words.old ≡ slots_len closed.now.words }
    ensures { words.new ≡ drop first (slots_items closed.now.words) }
{
    for i in 0..words.len() {
        words[i] = closed.word(first + i);
    }
}

/// Ends the station and puts its words into memory. The clause says where the machine then is.
pub fn disband(station: Station, root: Root, ram: &mut Ram)
    requires root { IsRootIn station root }
    requires windows { ram.old.windows ≡ windows_at station }
    ensures { EndsIn station root ram.new }
{
    let Station { table, count } = station;
    let Root { seat } = root;
    let closed = table.close_with(seat);
    let _all = ram.words(); // a fact for the proof
    put_back(ram.as_mut_slice(), &closed, count as usize + 2);
    closed.free();
}
