ghost use Rattle.std.specs.Prelude.{◌≡◌, ◌≤◌, ◌-◌, drop, length, map, replicate, take, false, true};
ghost use Rattle.std.specs.List.{list_all};
ghost use Rattle.mt_plain.specs.Plain.{as_pair, file_in, has_no_other_pair, is_file, is_zero_pair};
ghost use Rattle.mt_plain.specs.Tidying.{IsTidyAnswer, tidy_places};
ghost use Rattle.mt_regs.specs.RegisterFile.{pair_count};
ghost use Rattle.mt_tidy.specs.Tidied.{tidying};

use crate::status::{DISABLED, DONE, FAULT, NO_FILE, TOO_FEW};
use crate::{PlainNeed, PlainPair, PlainRegisters, file_of};
use mt_regs::RegFile;
use mt_tidy::{TidyFault, WorkArea, tidy as tidied_file};

const ZEROS: PlainPair = PlainPair { base: 0, mask: 0 };

fn pair_from(pair: (u64, u64)) -> PlainPair
    ensures { as_pair result ≡ pair }
{
    PlainPair {
        base: pair.0,
        mask: pair.1,
    }
}

// The pairs, and zeros behind them.
fn plain_pairs(pairs: &[(u64, u64)]) -> [PlainPair; 32]
    requires { length pairs.now ≤ 32 }
    ensures pairs { map as_pair (take (length pairs.now) result) ≡ pairs.now }
    ensures others { list_all is_zero_pair (drop (length pairs.now) result) ≡ true }
{
    let mut plain = [ZEROS; 32];
    for i in 0..pairs.len() {
        plain[i] = pair_from(pairs[i]);
    }
    plain
}

// The words that tell a file.
fn words_of(f: &RegFile) -> PlainRegisters
    ensures file { file_in result ≡ f.now }
    ensures others { has_no_other_pair result ≡ true }
    ensures words { is_file result ≡ true }
{
    PlainRegisters {
        width: f.maxphy as u64,
        capabilities: f.cap,
        pairs: plain_pairs(f.pairs.as_slice()),
        fixed: f.fixed,
        pat: f.pat,
        default_type: f.deftype,
    }
}

// Writes the words that tell a file.
#[inline(never)] // so that its callers take little stack while they search
pub(crate) fn put_words(f: &RegFile, words: &mut PlainRegisters)
    ensures file { file_in words.new ≡ f.now }
    ensures words { is_file words.new ≡ true }
{
    *words = words_of(f);
}

// How many pairs may be used.
pub(crate) fn usable_pairs(f: &RegFile, spare: u8) -> u64
    ensures { result ≡ pair_count f.now - spare }
{
    (f.pairs.len() as u64).saturating_sub(spare as u64)
}

/// Writes the file that gives each page the same type with the fewest valid pairs. Of two pairs that share a page the
/// larger has at most `chunk` bytes. `spare` pairs stay unused. Returns 0 if the file was written to `tidied`, and to
/// `need` the number of its pairs and how many may be used. Returns 10 if more pairs are needed than may be used: then
/// `need` alone is written. Returns 2 if the words are no register file's, 1 if the file has a fault, and 9 if its ranges
/// are off: then nothing is written. The contents of `work` may be any, and any afterwards.
pub fn tidy(
    r: &PlainRegisters,
    spare: u8,
    chunk: u64,
    work: &mut WorkArea,
    tidied: &mut PlainRegisters,
    need: &mut PlainNeed,
) -> u32
    ensures no_file { is_file r.now ≡ false → (result ≡ 2) × (tidied.new ≡ tidied.old) × (need.new ≡ need.old) }
    ensures file { is_file r.now ≡ true
        → IsTidyAnswer (tidying (file_in r.now) chunk spare) result (tidy_places tidied.old need.old) (tidy_places tidied.new need.new) }
{
    let Some(file) = file_of(r) else {
        return NO_FILE;
    };
    match tidied_file(&file, spare, chunk, work) {
        Ok(answer) => {
            put_words(&answer.file, tidied);
            *need = PlainNeed {
                needs: answer.used as u64,
                has: usable_pairs(&file, spare),
            };
            DONE
        }
        Err(TidyFault::Refused(_)) => FAULT,
        Err(TidyFault::Disabled) => DISABLED,
        Err(TidyFault::TooFew { needs, has }) => {
            *need = PlainNeed {
                needs,
                has: has as u64,
            };
            TOO_FEW
        }
    }
}
