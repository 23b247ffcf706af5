use mt_regs::Fault;

/// Why a file isn't rounded. `Disabled` comes only where `Refused` doesn't, and `TooFew` only where neither does.
#[derive(Clone, Copy, Debug, Drop, PartialEq, Eq)]
pub enum GranFault {
    /// The file isn't accepted: its first fault.
    Refused(Fault),
    /// The file is accepted, and its range registers are off.
    Disabled,
    /// The rounded types need `needs` pairs at least, and only `has` may be used.
    TooFew { needs: u64, has: u32 },
}
