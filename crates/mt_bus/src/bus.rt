use crate::holders::Holders;
use mt_cpu::Cpu;
use mt_ram::Ram;
use std::marker::Model;

/// Processors over one memory. The holders say of each line of each cache that this cache may have it. They are no part
/// of the bus's value, which is the machine's system.
#[derive(Drop)]
pub(crate) struct Bus {
    pub(crate) cpus: Vec<Cpu>,
    pub(crate) ram: Ram,
    pub(crate) holders: Holders,
}

impl Model for Bus {
    ghost use Rattle.mt_machine.specs.System.{System};
    ghost use Rattle.mt_bus.specs.Holders.{AreHeldBy};

    ghost Value = { System };

    ghost view = { λ b. record { processors = b.cpus.items; memory = b.ram } };

    ghost invariant = { λ b. AreHeldBy b.cpus.items b.holders };
}
