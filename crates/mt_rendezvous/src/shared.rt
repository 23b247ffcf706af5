// What the threads of an update share.
ghost use Rattle.std.specs.Prelude.{◌≡◌};

use crate::station::Station;
use mt_ram::Ram;
use mt_regs::RegFile;

// A station, memory with its windows, which says where its words are, and its goal. No thread changes this memory.
pub(crate) struct Shared {
    pub(crate) station: Station,
    pub(crate) ram: Ram,
    pub(crate) goal: RegFile,
    ghost windows: { ram.windows ≡ station.table.shared.key.ram.value.windows },
    ghost aim: { goal ≡ station.table.shared.key.goal.value },
}
