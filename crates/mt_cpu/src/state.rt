use mt_cache::{Buffers, Cache};
use mt_machine::Phase;
use mt_regs::RegFile;
use mt_tlb::{Maps, Tlb};

/// What a processor has, in a block of its own.
#[derive(Drop)]
pub(crate) struct State {
    pub(crate) regs: RegFile,
    pub(crate) cd: bool,
    pub(crate) pge: bool,
    pub(crate) had_pge: bool,
    pub(crate) maps: Maps,
    pub(crate) cache: Cache,
    pub(crate) buffers: Buffers,
    pub(crate) tlb: Tlb,
    pub(crate) phase: Phase,
    pub(crate) era: u64,
    pub(crate) self_snoop: bool,
}
