use mt_regs::Fault;

/// Why jobs aren't run.
#[derive(Clone, Copy, Debug, PartialEq, Eq)]
pub enum PrivateFault {
    /// An update is under way.
    UnderWay,
    /// The goal's first fault.
    Refused(Fault),
    /// The least physical page that two processors name, an address divided by 4,096.
    Shared(u64),
    /// Memory was refused.
    NoMemory,
}
