use mt_regs::Fault;

/// Why a file's types can't be given by pairs. `Disabled` comes only if `Refused` doesn't.
#[derive(Clone, Copy, Debug, Drop, PartialEq, Eq)]
pub enum Unfit {
    /// The file isn't accepted: its first fault.
    Refused(Fault),
    /// The file is accepted, and its range registers are off.
    Disabled,
}
