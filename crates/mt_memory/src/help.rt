ghost use Rattle.std.specs.Prelude.{◌≡◌, ◌≤◌, Some, None, IfSome, MatchOption, length, map, string_bytes};
ghost use Rattle.mt_memory.specs.Help.{help_text, own_text, version_text};

use crate::command::is_memory;

/// What `--help` writes.
fn help_text() -> &'static [u8]
    ensures text { result.now ≡ help_text }
    ensures short { length result.now ≤ 24576 }
{
    b"usage: mtrr-import memory [FORMAT] [table=N] [LOG] > MAP

Writes the memory map that a log shows, a line for each longest range of one
kind: its first and its last byte, both hexadecimal, and ram, reserved, device,
acpi, nvs or unusable. Writes what is missing or wrong to standard error.

  FORMAT      auto, coreboot, e820 (of Linux or Xen), efi (of Linux or the UEFI
              shell), iomem; without it auto
  table=N     reads one of the log's maps alone: first, last or its number
  LOG         names the log; without it, or if it is -, standard input is read
  -h, --help  this text
  --version   the version

Exit statuses are those of mtrr-import.
"
}

/// What `--version` writes.
fn version_text() -> &'static [u8]
    ensures text { result.now ≡ version_text }
    ensures short { length result.now ≤ 24576 }
{
    b"mtrr-import 1.0.0\n"
}

/// The text that these words ask for, if they are `memory` and `--help`, `-h` or `--version`.
pub(crate) fn own_text(words: &[String]) -> Option<&'static [u8]>
    ensures text { MatchOption result (own_text (map string_bytes words.now) ≡ None) (λ text. own_text (map string_bytes words.now) ≡ Some text.now) }
    ensures short { IfSome result (λ text. length text.now ≤ 24576) }
{
    if is_memory(words) {
        mt_shell::own_text(&words[1..], help_text(), version_text())
    } else {
        None
    }
}
