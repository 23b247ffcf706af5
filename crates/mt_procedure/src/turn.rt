/// What processors do by themselves in the runs of a case, and what counts as wrong.
#[derive(Clone, Copy)]
pub struct Mode {
    /// Processors translate pages and fetch lines by themselves.
    pub speculates: bool,
    /// A processor with CR0.CD set fetches lines too: no-fill mode fills.
    pub leaks: bool,
    /// The strict senses of wrong count too.
    pub strict: bool,
}

/// A turn of a run.
#[derive(Clone, Copy)]
pub enum Turn {
    /// The next step of a processor's list.
    Step(usize),
    /// A processor translates a page by itself.
    Translate(usize, u64),
    /// A processor fetches the line at 64 times this number, a virtual address.
    Fetch(usize, u64),
}
