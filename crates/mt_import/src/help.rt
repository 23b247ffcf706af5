ghost use Rattle.std.specs.Prelude.{◌≡◌, ◌≤◌, Some, None, IfSome, MatchOption, length, map, string_bytes};
ghost use Rattle.mt_import.specs.Help.{help_text, own_text, version_text};

/// What `--help` writes.
fn help_text() -> &'static [u8]
    ensures text { result.now ≡ help_text }
    ensures short { length result.now ≤ 0x8000 }
{
    b"usage: mtrr-import FORMAT [WORD ..] [LOG] > DUMP
       mtrr-import memory [FORMAT [table=N]] [LOG] > MAP

Makes a dump for mtrr of another program's log. Writes what is missing or
wrong to standard error. With memory it writes the log's memory map:
mtrr-import memory --help.

  FORMAT          auto, chipsec, coreboot, edk2, inteltool, linux, plain, rdmsr,
                  windbg, x86info, xen
  REGISTER=VALUE  supplies a register's value, both hexadecimal
  maxphyaddr=N    supplies the bits of a physical address, 32 to 52
  assume=NAME     assumes what no line and no word says: capabilities, fixed,
                  masks, pairs, pat, width or all; comments name what was assumed
  table=N         reads one of the log's tables alone: first, last or its number
  LOG             names the log; without it, or if it is -, standard input is read
  -h, --help      this text
  --version       the version

-h, --help and --version read nothing.

Exit status:
  0  done
  1  something is missing
  2  wrong usage
  3  a line of the log has a fault
  4  reading failed
  5  writing failed
  6  out of memory
  7  the input has more than 16,777,216 bytes
"
}

/// What `--version` writes.
fn version_text() -> &'static [u8]
    ensures text { result.now ≡ version_text }
    ensures short { length result.now ≤ 0x8000 }
{
    b"mtrr-import 1.0.0\n"
}

/// The text that these words ask for, where they are `--help`, `-h` or `--version` alone.
pub(crate) fn own_text(words: &[String]) -> Option<&'static [u8]>
    ensures text { MatchOption result (own_text (map string_bytes words.now) ≡ None) (λ text. own_text (map string_bytes words.now) ≡ Some text.now) }
    ensures short { IfSome result (λ text. length text.now ≤ 0x8000) }
{
    mt_shell::own_text(words, help_text(), version_text())
}
