// What the seats of a station know, and what each step tells.
use atomic_table::{Join, Play, Split, TableRule};
use mt_cpu::Cpu;
use mt_machine::Go;
use mt_ram::Ram;
use mt_regs::RegFile;
use std::collections::LinkedList;
use std::snapshot::Snapshot;

/// To how many of the two counts a pass has added: to none, to the first, or to both.
pub enum Added {
    Never,
    Once,
    Twice,
}

/// A processor in a view: its number, its state, and what its pass has added.
pub struct Held {
    pub number: u64,
    pub cpu: Cpu,
    pub added: Added,
}

/// What was gathered: all processors by number, the memory, and the registers that all are to have.
pub struct Start {
    pub cpus: LinkedList<Cpu>,
    pub ram: Ram,
    pub goal: RegFile,
}

/// What a seat knows. No value of it is made.
pub struct View {
    pub root: bool,
    pub held: LinkedList<Held>,
    pub go: Go,
    pub shown: Option<u64>,
    pub start: Start,
}

/// What the table is told once.
#[derive(Drop)]
pub struct Key {
    pub cpus: Snapshot<Vec<Cpu>>,
    pub ram: Snapshot<Ram>,
    pub goal: Snapshot<RegFile>,
}

/// The rule: between any two steps the words and the views stand for one machine, to which the broadcast state leads.
pub struct Meeting;

impl TableRule<(), View, Key> for Meeting {
    ghost use Rattle.mt_rendezvous.specs.Station.{Meets, first_view};

    ghost holds = { Meets };

    ghost first = { first_view };
}

/// The play of every step that a pass or the root makes. The word, the operand and the seat say which event it is, or
/// that it is none.
pub struct Turn;

impl Play<(), View> for Turn {
    ghost use Rattle.mt_rendezvous.specs.Plays.{TellsSeatStep};

    ghost then = { TellsSeatStep };
}

/// The root gives its first processor away, and takes one back. Neither is an event: no word changes, and the
/// processors stay as they are.
pub struct HandsOver;

impl Split<View> for HandsOver {
    ghost use Rattle.mt_rendezvous.specs.Station.{root_left, pass_right};

    ghost left = { root_left };

    ghost right = { pass_right };
}

impl Join<View> for HandsOver {
    ghost use Rattle.mt_rendezvous.specs.Station.{both, spent};

    ghost both = { both };

    ghost spent = { spent };
}
