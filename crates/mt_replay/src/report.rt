ghost use Rattle.std.specs.Prelude.{◌≡◌, ◌<◌, ◌≤◌, ◌+◌, ◌++◌, length, slice_get, Some};
ghost use Rattle.mt_replay.specs.Texts.{processor_lines, report_text};

use crate::texts::{have_one_file, processor_line, registers_line};
use mt_cpu::Cpu;
use mt_output::{LINE_ROOM, WRITER_ROOM, Writer};

/// What a report takes at most: a line for each of 16 processors, and one about all.
pub const REPORT_ROOM: usize = 17 * LINE_ROOM;

fn cpu_at(cpus: &[Cpu], k: usize) -> &Cpu
    requires { k < length cpus.now }
    ensures { slice_get cpus.now k ≡ Some result.now }
{
    &cpus[k]
}

// Adds a line for each processor, in order.
fn append_processors(writer: &mut Writer, cpus: &[Cpu])
    requires room { length writer.old + REPORT_ROOM ≤ WRITER_ROOM }
    requires few { length cpus.now ≤ 16 }
    ensures text { writer.new ≡ writer.old ++ processor_lines 0 cpus.now }
    ensures room { length writer.new + LINE_ROOM ≤ WRITER_ROOM }
{
    'processors: for k in 0..cpus.len() {
        writer.append(processor_line(k as u32, cpu_at(cpus, k)).as_slice());
    }
}

/// Adds a line for each processor in order, and whether all have the same registers.
#[inline(never)]
pub(crate) fn report(writer: &mut Writer, cpus: &[Cpu])
    requires room { length writer.old + REPORT_ROOM ≤ WRITER_ROOM }
    requires few { length cpus.now ≤ 16 }
    ensures { writer.new ≡ writer.old ++ report_text cpus.now }
{
    append_processors(writer, cpus);
    writer.append(registers_line(have_one_file(cpus)).as_slice());
}
