use crate::holders::Holders;
use mt_cpu::Cpu;
use mt_ram::Ram;
use mt_types::KindTable;

/// What a system is made of.
#[derive(Drop)]
pub struct SystemParts {
    /// The processors, by their numbers.
    pub cpus: Vec<Cpu>,
    pub ram: Ram,
    /// Each processor's table of types.
    pub tables: Vec<KindTable>,
    /// Which caches may have a line.
    pub holders: Holders,
}
