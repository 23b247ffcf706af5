ghost use Rattle.std.specs.Prelude.{◌≡◌};
ghost use Rattle.mt_answers.specs.Help.{help_text, version_text};

/// What `--help` writes.
pub fn help_text() -> &'static [u8]
    ensures { result.now ≡ help_text }
{
    b"usage: mtrr COMMAND < INPUT

Checks and explains the memory type registers of x86 processors: MTRRs
and the PAT. INPUT is a dump of registers. For replay it is a script,
and for proc a dump with requests.

  check                            are the registers lawful?
  show                             the canonical text of the dump
  types                            the memory type of every page
  page ADDR INDEX                  the types of one page
  tidy [spare=N] [chunk=HEX]       the fewest pairs for the same types
  gran SIZE [spare=N] [chunk=HEX]  the same for types rounded to granules
  replay                           the transcript of a script
  proc N                           /proc/mtrr requests, on N processors
  make N                           a script for measurements
  big N                            counts and sums of its transcript
  private P N C                    sums of what P processors load and store
  --help                           this text
  --version                        the version

INDEX is an entry of the PAT, 0 to 7. SIZE is the bytes of a granule.
spare=N leaves N pairs free, by default 1. chunk=HEX bounds overlaps: of
two ranges that share a page the larger has at most HEX bytes, by
default 10000000. ADDR, SIZE and HEX are hexadecimal, all other numbers
are decimal. make, big, private, --help and --version read nothing.

Exit status:
  0  done
  1  the registers have a fault
  2  wrong usage
  3  the input is no dump, script or request
  4  reading failed
  5  writing failed
  6  out of memory
  7  the input has more than 16,777,216 bytes
  8  tidy, gran: too few pairs
  9  tidy, gran: the MTRRs are off
"
}

/// What `--version` writes.
pub fn version_text() -> &'static [u8]
    ensures { result.now ≡ version_text }
{
    b"mtrr 1.0.0\n"
}
