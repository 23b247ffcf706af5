// The yard, and the seat of its host.
ghost use Rattle.std.specs.Prelude.{◌≡◌, ◌+◌, ◌<◌, Some, length, slice_set};
ghost use Rattle.mt_machine.specs.declared.go.Go.TheVariants.{Cancelled, Given, Pending};
ghost use Rattle.mt_private.specs.YardRule.{yard_both};

use crate::view::{HandsOver, Lodging, YardTurn, YardView};
use crate::visiting::{Guest, YardPass};
use atomic_table::{Seat, Table};
use mt_bus::{System, SystemParts};
use mt_machine::Op;
use mt_rendezvous::{Coordinator, Key};
use std::alloc::Global;

// What the host adds to the first count to cancel.
pub(crate) const CANCEL: u64 = 0x1_0000_0000;

/// The words of one update between accesses: the two counts, and an event word for each processor.
#[derive(Drop)]
pub struct Yard {
    pub table: Table<Op, YardView, Key, Lodging, Global>,
    pub count: u64,
    pub ghost counted: { length table.shared.key.cpus.value.items ≡ count },
    pub ghost wide: { table.shared.table_id.words ≡ count + 2 },
    pub ghost few: { count < 65536 },
    pub ghost no_slots: { table.shared.table_id.slots ≡ 0 },
}

/// The coordinator's seat. It has the processors that aren't given away, and says whether go was given. What comes
/// back it keeps.
#[derive(Drop)]
pub struct Host {
    pub seat: Seat<Op, YardView>,
    /// By number, the own system of each guest that came back.
    pub owns: Vec<Option<System>>,
    /// The emptied lists of the gathered system, and the words of the pages that no processor named.
    pub rest: SystemParts,
}

impl Coordinator<Yard> for Host {
    ghost use Rattle.mt_private.specs.InYard.{HostsIn};

    ghost has_cancelled = { λ y h. HostsIn y h Cancelled };
}

impl Host {
    ghost use Rattle.mt_private.specs.InYard.{AddsToFirst, HoldsAsBefore, HostsIn, IsGuestOf, IsHostOf, KeepsOwns, host_view, pass_view};

    /// Gives the go, once. Its addition to the first count is the event Go.
    pub fn go(&mut self, yard: &Yard)
        requires { HostsIn yard.now self.old Pending }
        ensures hosts { HostsIn yard.now self.new Given }
        ensures same { HoldsAsBefore self.old self.new }
        ensures event { AddsToFirst 1 self.old self.new }
    {
        yard.table
            .shared
            .fetch_add::<YardTurn>(&mut self.seat, 0, 1);
    }

    /// Cancels, once, in place of the go. Its addition to the first count is the event Cancel.
    pub fn cancel(&mut self, yard: &Yard)
        requires { HostsIn yard.now self.old Pending }
        ensures hosts { HostsIn yard.now self.new Cancelled }
        ensures same { HoldsAsBefore self.old self.new }
        ensures event { AddsToFirst 4294967296 self.old self.new }
    {
        yard.table
            .shared
            .fetch_add::<YardTurn>(&mut self.seat, 0, CANCEL);
    }

    /// Takes a guest back: joins its pass, and keeps its processor and the words of its pages.
    pub fn take_back(&mut self, yard: &Yard, guest: Guest)
        requires hosts { IsHostOf yard.now self.old }
        requires lodges { IsGuestOf yard.now guest }
        requires long { length self.old.owns.items ≡ yard.now.count }
        ensures hosts { IsHostOf yard.now self.new }
        ensures view { host_view self.new ≡ yard_both (host_view self.old) (pass_view guest.pass) }
        ensures owns { self.new.owns.items ≡ slice_set self.old.owns.items guest.pass.number (Some guest.own) }
        ensures rest { self.new.rest ≡ self.old.rest }
        ensures keeps { KeepsOwns self.old → KeepsOwns self.new }
    {
        let Guest { own, pass } = guest;
        let YardPass {
            seat,
            number,
            stored: _,
        } = pass;
        self.owns[number as usize] = Some(own);
        yard.table
            .shared
            .join_seat::<HandsOver>(&mut self.seat, seat);
    }
}
