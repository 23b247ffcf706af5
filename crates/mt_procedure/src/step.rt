use mt_machine::Op;

/// A step of a list.
#[derive(Clone, Copy)]
pub enum ProcedureStep {
    /// The interrupt is taken: the write-combining buffers are emptied.
    Take,
    /// The processor is counted at a barrier.
    Arrive(u32),
    /// The processor waits until so many have arrived at a barrier.
    Wait { barrier: u32, count: u32 },
    /// CR0.CD is set.
    SetCd,
    /// WBINVD: the dirty words go to memory one by one, then all lines are invalidated.
    Wbinvd,
    /// INVD: all lines are invalidated, and no word goes to memory.
    Invd,
    /// CR4.PGE is remembered and cleared, which drops all TLB entries. If it is clear, CR3 is reloaded.
    ClearPge,
    /// CR3 is reloaded: the TLB entries that aren't global are dropped.
    ReloadCr3,
    /// The bit E of the default-type register is cleared.
    ClearE,
    /// All registers but the default type get the goal's values, one by one.
    Write,
    /// The default-type register gets the goal's value.
    Enable,
    /// CR0.CD is cleared.
    ClearCd,
    /// CR4.PGE is as it was remembered.
    RestorePge,
    /// The processor goes on: its interrupts are on.
    Release,
    Access(Op),
    /// The TLB entry of a virtual address's page is dropped.
    Invlpg(u64),
    /// CR4.PGE is set or cleared.
    Pge(bool),
    /// CR0.CD is set or cleared, with the write-combining buffers emptied first.
    Cd(bool),
}

/// The steps that are one word.
pub const PLAIN: [ProcedureStep; 13] = [
    ProcedureStep::Take,
    ProcedureStep::SetCd,
    ProcedureStep::Wbinvd,
    ProcedureStep::Invd,
    ProcedureStep::ClearPge,
    ProcedureStep::ReloadCr3,
    ProcedureStep::ClearE,
    ProcedureStep::Write,
    ProcedureStep::Enable,
    ProcedureStep::ClearCd,
    ProcedureStep::RestorePge,
    ProcedureStep::Release,
    ProcedureStep::Access(Op::Fence),
];

impl ProcedureStep {
    /// The word with which its line begins.
    pub fn word(self) -> &'static str {
        match self {
            ProcedureStep::Take => "take",
            ProcedureStep::Arrive(_) => "arrive",
            ProcedureStep::Wait { .. } => "wait",
            ProcedureStep::SetCd => "set-cd",
            ProcedureStep::Wbinvd => "wbinvd",
            ProcedureStep::Invd => "invd",
            ProcedureStep::ClearPge => "clear-pge",
            ProcedureStep::ReloadCr3 => "reload-cr3",
            ProcedureStep::ClearE => "clear-e",
            ProcedureStep::Write => "write",
            ProcedureStep::Enable => "enable",
            ProcedureStep::ClearCd => "clear-cd",
            ProcedureStep::RestorePge => "restore-pge",
            ProcedureStep::Release => "release",
            ProcedureStep::Access(Op::Load(_)) => "load",
            ProcedureStep::Access(Op::Store(..)) => "store",
            ProcedureStep::Access(Op::Fence) => "fence",
            ProcedureStep::Invlpg(_) => "invlpg",
            ProcedureStep::Pge(_) => "pge",
            ProcedureStep::Cd(_) => "cd",
        }
    }
}

/// Where a processor is in its list.
#[derive(Clone, Copy)]
pub struct ListPlace {
    /// The number of steps that are done.
    pub step: usize,
    /// The number of registers that `Write` has written.
    pub part: u8,
}
