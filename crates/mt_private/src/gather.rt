// A yard is gathered from a system.
ghost use Rattle.std.specs.Prelude.{◌≡◌, ◌+◌, ◌≤◌, [], IfErr, IfOk, IfSome, None, length, replicate, vec_capacity};
ghost use Rattle.mt_machine.specs.declared.go.Go.TheVariants.{Pending};
ghost use Rattle.mt_machine.specs.Memory.{IsMemory};
ghost use Rattle.mt_rendezvous.specs.Calls.{gathered};
ghost use Rattle.mt_private.specs.Alone.{named_by_none};
ghost use Rattle.mt_private.specs.Own.{own_memory};
ghost use Rattle.mt_private.specs.Residents.{Opens};
ghost use Rattle.mt_private.specs.Gathered.{AreRooms, IsEmptied, IsOwnOf, IsRest};
ghost use Rattle.mt_private.specs.InYard.{AreFirstIn, AreGatheredIn, HostsIn, IsFreshHost, IsGatheredIn, LeadsIn, OffersIn, start_at};

use crate::host::{Host, Yard};
use crate::joint::{Joint, put_words};
use crate::rooms::Room;
use crate::view::{HandsOver, YardView};
use crate::visiting::{Guest, YardPass};
use atomic_table::{Seat, Table};
use mt_bus::{System, SystemParts, a_system_is_sound};
use mt_cpu::Cpu;
use mt_machine::Op;
use mt_ram::Ram;
use mt_regs::RegFile;
use mt_rendezvous::Key;
use std::alloc::Global;
use std::snapshot::Snapshot;

// A room for each guest, or none if an allocation fails.
fn rooms_for(alloc: Global, cpus: &[Cpu], ram: &Ram) -> Option<Vec<Room>>
    ensures { IfSome result (λ rooms. AreRooms cpus.now ram.now rooms.items) }
{
    let Ok(mut rooms) = Vec::with_capacity(alloc, cpus.len()) else {
        return None;
    };
    for k in 0..cpus.len() {
        let room = Room::new(alloc, &cpus[k], ram)?;
        rooms.push_reserved(room);
    }
    Some(rooms)
}

// Leaves the words of the pages that no processor names, and puts 0 in place of the others.
fn keep_left(cpus: &[Cpu], rooms: &[Room], ram: &mut Ram)
    requires memory { IsMemory ram.old }
    requires rooms { AreRooms cpus.now ram.old rooms.now }
    ensures { ram.new ≡ own_memory (named_by_none cpus.now) ram.old }
{
    for k in 0..cpus.len() {
        put_words(Joint::Less, &rooms[k].ram, ram);
    }
}

// Places for the systems that come back, or none if an allocation fails.
fn places_for(alloc: Global, count: usize) -> Option<Vec<Option<System>>>
    ensures { IfSome result (λ owns. owns.items ≡ replicate count None) }
{
    let Ok(mut owns) = Vec::with_capacity(alloc, count) else {
        return None;
    };
    for i in 0..count {
        let _ = i;
        owns.push_reserved(None);
    }
    Some(owns)
}

// The root's next resident goes to a new pass.
fn give_away(yard: &Yard, seat: &mut Seat<Op, YardView>, own: System, i: usize) -> Guest
    requires leads { LeadsIn yard.now seat.old Pending }
    requires offers { OffersIn yard.now i seat.old }
    requires own { IsOwnOf (start_at yard.now) i own }
    ensures leads { LeadsIn yard.now seat.new Pending }
    ensures offers { OffersIn yard.now (i + 1) seat.new }
    ensures guest { IsGatheredIn yard.now i result }
{
    let seat = yard.table.shared.split_seat::<HandsOver>(seat);
    Guest {
        own,
        pass: YardPass {
            seat,
            number: i as u64,
            stored: 0,
        },
    }
}

// The root gives these away, which are the first ones, in their order.
fn give_all(
    yard: &Yard,
    seat: &mut Seat<Op, YardView>,
    parts: &mut SystemParts,
    rooms: &mut Vec<Room>,
    guests: &mut Vec<Guest>,
)
    requires leads { LeadsIn yard.now seat.old Pending }
    requires offers { OffersIn yard.now 0 seat.old }
    requires first { AreFirstIn yard.now parts.old rooms.old.items }
    requires room { length parts.old.cpus.items ≤ vec_capacity guests.old }
    requires empty { guests.old.items ≡ [] }
    ensures leads { LeadsIn yard.now seat.new Pending }
    ensures offers { OffersIn yard.now (length parts.old.cpus.items) seat.new }
    ensures emptied { IsEmptied parts.old parts.new }
    ensures count { length guests.new.items ≡ length parts.old.cpus.items }
    ensures room { vec_capacity guests.new ≡ vec_capacity guests.old }
    ensures each { AreGatheredIn yard.now guests.new.items }
{
    let Some(cpu) = parts.cpus.pop() else {
        return;
    };
    let Some(table) = parts.tables.pop() else {
        unreachable!()
    };
    let Some(room) = rooms.pop() else {
        unreachable!()
    };
    let i = parts.cpus.len();
    let own = room.settle(cpu, table);
    give_all(yard, seat, parts, rooms, guests);
    let guest = give_away(yard, seat, own, i);
    guests.push_reserved(guest);
}

// A table for these processors, all of which the root has, or none if an allocation fails.
fn open(
    alloc: Global,
    cpus: &Vec<Cpu>,
    ram: &Ram,
    goal: &RegFile,
) -> Option<(Yard, Seat<Op, YardView>)>
    requires opens { Opens (gathered cpus.now.items ram.now goal.now) }
    ensures host { IfSome result (λ y. LeadsIn y.0 y.1 Pending × OffersIn y.0 0 y.1) }
    ensures key { IfSome result (λ y. start_at y.0 ≡ gathered cpus.now.items ram.now goal.now) }
{
    let count = cpus.len();
    // The counts and the event words, which are 0.
    let zeros = [0u64; 18];
    let key = Key {
        cpus: Snapshot::of(cpus),
        ram: Snapshot::of(ram),
        goal: Snapshot::of(goal),
    };
    let Ok((table, seat)) = Table::of_words(alloc, &zeros[..count + 2], &key) else {
        return None;
    };
    let yard = Yard {
        table,
        count: count as u64,
    };
    Some((yard, seat))
}

impl Yard {
    /// Makes the yard of this system and this goal. Guest k has processor k alone, with the words of the pages that it
    /// names. The host keeps the emptied lists, and the words of the pages that none names.
    ///
    /// # Errors
    ///
    /// An allocation fails; the system comes back. No clause excludes an error for another reason.
    pub fn gather(
        alloc: Global,
        system: System,
        goal: &RegFile,
    ) -> Result<(Yard, Host, Vec<Guest>), System>
        requires opens { Opens (gathered system.processors system.memory goal.now) }
        ensures host { IfOk result (λ y. HostsIn y.0 y.1 Pending) }
        ensures fresh { IfOk result (λ y. IsFreshHost y.0 y.1) }
        ensures rest { IfOk result (λ y. IsRest (start_at y.0) y.1.rest) }
        ensures key { IfOk result (λ y. start_at y.0 ≡ gathered system.processors system.memory goal.now) }
        ensures count { IfOk result (λ y. length y.2.items ≡ length system.processors) }
        ensures guests { IfOk result (λ y. AreGatheredIn y.0 y.2.items) }
        ensures refused { IfErr result (λ s. s ≡ system) }
    {
        a_system_is_sound(&system); // a fact for the proof
        let Ok(mut guests) = Vec::with_capacity(alloc, system.cpus().len()) else {
            return Err(system);
        };
        let Some(owns) = places_for(alloc, system.cpus().len()) else {
            return Err(system);
        };
        let Some(mut rooms) = rooms_for(alloc, system.cpus(), system.ram()) else {
            return Err(system);
        };
        let mut parts = system.into_parts();
        let Some((yard, mut seat)) = open(alloc, &parts.cpus, &parts.ram, goal) else {
            return Err(System::from_parts(parts));
        };
        keep_left(parts.cpus.as_slice(), rooms.as_slice(), &mut parts.ram);
        give_all(&yard, &mut seat, &mut parts, &mut rooms, &mut guests);
        let host = Host {
            seat,
            owns,
            rest: parts,
        };
        Ok((yard, host, guests))
    }
}
