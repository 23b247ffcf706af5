// What the seats of a yard know, and the one play of their steps.
use atomic_table::{Join, Play, Split, TableRule};
use mt_machine::{Go, Op};
use mt_ram::Ram;
use mt_rendezvous::{Held, Key, Start};
use std::collections::LinkedList;

/// A processor in a view, with the words of its own pages, the accesses of its job that it has done, and its event word
/// as its pass last stored it.
pub struct Resident {
    pub held: Held,
    pub ram: Ram,
    pub done: LinkedList<Op>,
    pub stored: u64,
}

/// What a seat knows. No value of it is made.
pub struct YardView {
    pub root: bool,
    pub held: LinkedList<Resident>,
    pub go: Go,
    pub shown: Option<u64>,
    pub cancel: bool,
    pub start: Start,
}

/// The rule: between any two steps the words and the views stand for one machine, which the state after the call reaches.
pub struct Lodging;

impl TableRule<Op, YardView, Key> for Lodging {
    ghost use Rattle.mt_private.specs.YardRule.{MeetsYard, first_yard_view};

    ghost holds = { MeetsYard };

    ghost first = { first_yard_view };
}

/// A step of a seat: it is one event, or none. No other play stands beside it, so the steps of a yard are those that
/// `TellsYardStep` has.
///
/// The root adds 1 to the first count, which is Go, or 2^32, which is Cancel. A pass loads that count to take, adds 1 to
/// arrive, and loads it to pass or leave. It stores its event word for each event that is due between the barriers, and
/// exchanges it for each access. It adds 1 to the second count to arrive again, and loads it to be released.
pub struct YardTurn;

impl Play<Op, YardView> for YardTurn {
    ghost use Rattle.mt_private.specs.YardPlays.{TellsYardStep};

    ghost then = { TellsYardStep };
}

/// The root gives its first resident away, and takes one back. Neither is an event.
pub struct HandsOver;

impl Split<YardView> for HandsOver {
    ghost use Rattle.mt_private.specs.YardRule.{yard_left, yard_right};

    ghost left = { yard_left };

    ghost right = { yard_right };
}

impl Join<YardView> for HandsOver {
    ghost use Rattle.mt_private.specs.YardRule.{yard_both, yard_spent};

    ghost both = { yard_both };

    ghost spent = { yard_spent };
}
