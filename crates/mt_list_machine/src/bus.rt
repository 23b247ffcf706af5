use crate::cpu::Cpu;
use mt_ram::Ram;
use std::marker::Model;

/// The processors over one memory, which has the windows of a layout. The value is the machine's system.
#[derive(Drop)]
pub struct Bus<'a> {
    pub layout: &'a Ram,
    pub cpus: Vec<Cpu>,
    pub words: Vec<u64>,
}

impl<'a> Model for Bus<'a> {
    ghost use Rattle.mt_machine.specs.System.{System};
    ghost use Rattle.mt_list_machine.specs.Parts.{bus};

    ghost Value = { System };

    ghost view = { λ b. bus b.layout.now b.cpus.items b.words.items };
}
