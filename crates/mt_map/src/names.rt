use crate::drawing::Part;

/// What a picture calls its two files.
#[derive(Clone, Copy)]
pub enum Names {
    /// Processor 0, and the processor of this number.
    Cpus(u32),
    /// The file before a change, and the one after it.
    Files,
}

/// What the first file is called.
pub(crate) fn first_name(names: Names) -> Part<'static> {
    match names {
        Names::Cpus(_) => Part::Decimal(b"cpu ", 0),
        Names::Files => Part::Text(b"before"),
    }
}

/// What the file beside it is called.
pub(crate) fn second_name(names: Names) -> Part<'static> {
    match names {
        Names::Cpus(k) => Part::Decimal(b"cpu ", k as u64),
        Names::Files => Part::Text(b"after"),
    }
}
