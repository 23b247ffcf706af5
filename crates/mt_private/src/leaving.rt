// A yard ends, and leaves a system.
ghost use Rattle.std.specs.Prelude.{◌≡◌, ◌+◌, ◌++◌, ◌<◌, ◌≤◌, [], length, vec_capacity, vec_len};
ghost use Rattle.std.specs.List.{fold};
ghost use Rattle.mt_machine.specs.System.{IsSound};
ghost use Rattle.mt_bus.specs.Tables.{AreTablesOf};
ghost use Rattle.mt_private.specs.Gathered.{IsRest};
ghost use Rattle.mt_private.specs.InYard.{AllBackIn, IsHostOf, LeavesIn, start_at};
ghost use Rattle.mt_private.specs.Left.{AreAsGathered, AreOwnsOf, AreParts, over, processors_in, with_words_of, word_by_word};
ghost use Rattle.mt_private.specs.Residents.{system_of};

use crate::host::{Host, Yard};
use crate::joint::{Joint, put_words};
use mt_bus::{System, SystemParts};

// The one processor and its table go to the end of the lists, and its words to their places.
fn bring(own: System, rest: &mut SystemParts)
    requires one { length own.processors ≡ 1 }
    requires words { length own.memory.words ≡ length rest.old.ram.words }
    requires processors { vec_len rest.old.cpus < vec_capacity rest.old.cpus }
    requires places { vec_len rest.old.tables < vec_capacity rest.old.tables }
    requires tables { AreTablesOf rest.old.cpus.items rest.old.tables.items }
    ensures processors { rest.new.cpus.items ≡ rest.old.cpus.items ++ own.processors }
    ensures tables { AreTablesOf rest.new.cpus.items rest.new.tables.items }
    ensures words { rest.new.ram ≡ record rest.old.ram { words = word_by_word over own.memory.words rest.old.ram.words } }
    ensures count { length rest.new.tables.items ≡ length rest.old.tables.items + 1 }
    ensures room { (vec_capacity rest.new.cpus ≡ vec_capacity rest.old.cpus) × (vec_capacity rest.new.tables ≡ vec_capacity rest.old.tables) }
{
    let SystemParts {
        mut cpus,
        ram,
        mut tables,
        ..
    } = own.into_parts();
    let Some(cpu) = cpus.pop() else {
        unreachable!()
    };
    let Some(table) = tables.pop() else {
        unreachable!()
    };
    rest.cpus.push_reserved(cpu);
    rest.tables.push_reserved(table);
    put_words(Joint::Over, &ram, &mut rest.ram);
}

// All of these, by their numbers.
fn bring_all(owns: &mut Vec<Option<System>>, rest: &mut SystemParts)
    requires parts { AreParts rest.old.ram owns.old.items }
    requires empty { (rest.old.cpus.items ≡ []) × (rest.old.tables.items ≡ []) }
    requires processors { length owns.old.items ≤ vec_capacity rest.old.cpus }
    requires places { length owns.old.items ≤ vec_capacity rest.old.tables }
    ensures processors { rest.new.cpus.items ≡ processors_in owns.old.items }
    ensures tables { AreTablesOf rest.new.cpus.items rest.new.tables.items }
    ensures words { rest.new.ram ≡ fold with_words_of rest.old.ram owns.old.items }
    ensures count { (length rest.new.cpus.items ≡ length owns.old.items) × (length rest.new.tables.items ≡ length owns.old.items) }
    ensures room { (vec_capacity rest.new.cpus ≡ vec_capacity rest.old.cpus) × (vec_capacity rest.new.tables ≡ vec_capacity rest.old.tables) }
{
    let Some(last) = owns.pop() else {
        return;
    };
    let Some(own) = last else { unreachable!() };
    bring_all(owns, rest);
    bring(own, rest);
}

fn put_together(mut rest: SystemParts) -> System
    requires sound { IsSound (record { processors = rest.cpus.items; memory = rest.ram }) }
    requires tables { AreTablesOf rest.cpus.items rest.tables.items }
    ensures { result ≡ record { processors = rest.cpus.items; memory = rest.ram } }
{
    rest.holders.forget();
    System::from_parts(rest)
}

/// Ends the yard, whose guests have all come back, and returns the system that its words and views stand for. Its
/// processors and the words of their pages are those of the guests' own systems. All other words are as they were
/// gathered. Allocates nothing.
pub fn leave(yard: Yard, host: Host) -> System
    requires hosts { IsHostOf yard host }
    requires back { AllBackIn yard host }
    requires rest { IsRest (start_at yard) host.rest }
    ensures leaves { LeavesIn yard host result }
    ensures owns { AreOwnsOf (start_at yard) host.owns.items result }
    ensures unvisited { AreAsGathered (start_at yard) host.owns.items → result ≡ system_of (start_at yard) }
{
    let Yard { table, count: _ } = yard;
    let Host {
        seat,
        mut owns,
        mut rest,
    } = host;
    let closed = table.close_with(seat);
    closed.free();
    bring_all(&mut owns, &mut rest);
    put_together(rest)
}
