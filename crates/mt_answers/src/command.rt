/// What a command line asks for.
#[derive(Clone, Copy)]
pub enum Command {
    /// What the calling thread does alone.
    Serial(SerialCommand),
    /// What is done on threads that wait for each other.
    Threaded(ThreadedCommand),
}

/// A command that starts no thread and waits for nobody.
#[derive(Clone, Copy)]
pub enum SerialCommand {
    /// An answer about a dump.
    Dump(DumpCommand),
    /// The text for measurements that a number determines. It reads nothing.
    Make(u64),
    /// What the program does and its words. It reads nothing.
    Help,
    /// The version of the program. It reads nothing.
    Version,
}

/// A command that runs processors on threads, and may wait for them.
#[derive(Clone, Copy)]
pub enum ThreadedCommand {
    /// The transcript of a script.
    Replay,
    /// What becomes of requests behind a dump, on so many processors.
    Proc(u32),
    /// The numbers of the transcript of a text for measurements. It reads nothing.
    Big(u64),
    /// What the jobs of so many processors sum to, which begin with this number and make so many
    /// accesses before one update and as many after it. It reads nothing.
    Private { cpus: u32, n: u64, accesses: u32 },
}

/// What is asked of a dump: of processor 0's file, except for `Check` and `Show`.
#[derive(Clone, Copy)]
pub enum DumpCommand {
    /// Whether each file is accepted, and in version 2 whether all are equal.
    Check,
    /// Its canonical text.
    Show,
    /// The type of each page.
    Types,
    /// The types of the page that has a byte address, mapped with an index of a PAT entry.
    Page { address: u64, index: u8 },
    /// A file of the same types with the fewest pairs, of which some are to be spared. Of two
    /// ranges that share a page the larger has at most `chunk` bytes.
    Tidy { spare: u8, chunk: u64 },
    /// The same for the types rounded to granules of `2^log` pages, and what is lost.
    Gran { log: u8, spare: u8, chunk: u64 },
}

/// An option of the commands `tidy` and `gran`.
#[derive(Clone, Copy)]
pub enum TidyOption {
    Spare(u8),
    Chunk(u64),
}

/// What the options of `tidy` and `gran` say, with the usual for those that are left out.
#[derive(Clone, Copy)]
pub struct TidyOptions {
    pub spare: u8,
    pub chunk: u64,
}
