use mt_machine::Go;
use mt_regs::RegFile;
use mt_types::KindTable;
use std::marker::Model;

/// An update that was called.
#[derive(Drop)]
pub struct Order {
    /// The registers that all processors are to have.
    pub goal: RegFile,
    /// The era that all processors had.
    pub from_era: u64,
    /// What the coordinator has said.
    pub go: Go,
    /// The types that the goal gives to its pages. They are no part of the order's value.
    pub kinds: KindTable,
}

impl Model for Order {
    ghost use Rattle.mt_machine.specs.Machine.{Order as MachineOrder};
    ghost use Rattle.mt_types.specs.Tables.{IsTableOf};

    ghost Value = { MachineOrder };

    ghost view = { λ o. record { goal = o.goal; from_era = o.from_era; go = o.go } };

    ghost invariant = { λ o. IsTableOf o.goal o.kinds };
}
