use mt_regs::Fault;

/// Why an update isn't begun.
#[derive(Clone, Copy, Debug, PartialEq, Eq)]
pub enum CallFault {
    /// The goal's first fault.
    Refused(Fault),
    /// An update is under way.
    UnderWay,
}
