/// Something worth knowing of a file, which is no fault.
#[derive(Clone, Copy, Debug, Drop, PartialEq, Eq)]
pub enum Note {
    /// E is clear, so all pages are UC.
    Off,
    /// FE is clear, though the processor has fixed-range registers and one isn't 0.
    FixedOff,
    /// The page of the local APIC isn't UC.
    LocalApic,
    /// The page of the I/O APIC isn't UC.
    IoApic,
    /// This valid pair changes no page's type, the file is accepted and E is set.
    IdlePair(u8),
    /// The valid masks are those of another address width, of so many bits.
    OtherWidth(u8),
}
