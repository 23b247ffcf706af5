ghost use Rattle.std.specs.Prelude.{◌≡◌, ◌≤◌, ◌+◌, ◌^◌, ℕ, length, map, false, true};
ghost use Rattle.mt_gran.specs.Sizes.{IsGranuleSize};
ghost use Rattle.mt_plain.specs.Maps.{overwritten, plain_run};
ghost use Rattle.mt_plain.specs.Plain.{file_in, is_file};
ghost use Rattle.mt_plain.specs.Rounding.{IsGranAnswer, places};
ghost use Rattle.mt_tidy.specs.Tidied.{tidying};

use crate::maps::{put_run, room_status, run_words};
use crate::status::{DISABLED, FAULT, NO_FILE, NO_GRANULE, TOO_FEW};
use crate::tidied::{put_words, usable_pairs};
use crate::{PlainLoss, PlainNeed, PlainRegisters, PlainRun, file_of};
use mt_gran::{GranFault, Lost, gran_in, granule_log};
use mt_tidy::{PackedRuns, WorkArea};

// Writes runs to an array, as far as it goes.
fn put_runs(from: &PackedRuns, to: &mut [PlainRun])
    ensures { to.new ≡ overwritten (map plain_run from.now) to.old }
{
    for i in 0..from.count() {
        put_run(to, i, run_words(from.run_at(i)));
    }
}

/// Does what `tidy` does, for the types rounded to granules of `size` bytes, and writes what is lost. `loss` gets how many
/// pages had WB and get UC, and how many parts there are. `parts` gets the longest runs of pages of one type other than
/// UC that get UC. Returns 0 if all was written, and 6 if `parts` has room only for the first of them. Else returns 2 if
/// the words are no register file's, 11 if the size isn't a power of two from 4 KB to 1 TB, and 1, 9 or 10 as `tidy`
/// does. What isn't written is as before. The contents of `work` may be any, and any afterwards.
pub fn gran(
    r: &PlainRegisters,
    size: u64,
    spare: u8,
    chunk: u64,
    work: &mut WorkArea,
    rounded: &mut PlainRegisters,
    need: &mut PlainNeed,
    loss: &mut PlainLoss,
    parts: &mut [PlainRun],
) -> u32
    ensures no_file { is_file r.now ≡ false → (result ≡ 2) × (places rounded.new need.new loss.new parts.new ≡ places rounded.old need.old loss.old parts.old) }
    ensures no_granule { is_file r.now ≡ true → ((log : ℕ) → ¬ IsGranuleSize size log)
        → (result ≡ 11) × (places rounded.new need.new loss.new parts.new ≡ places rounded.old need.old loss.old parts.old) }
    ensures file { is_file r.now ≡ true → IsGranAnswer (tidying (file_in r.now) chunk spare) size result
        (places rounded.old need.old loss.old parts.old) (places rounded.new need.new loss.new parts.new) }
{
    let Some(file) = file_of(r) else {
        return NO_FILE;
    };
    let Some(log) = granule_log(size) else {
        return NO_GRANULE;
    };
    let mut lost = Lost { pages: 0, parts: 0 };
    match gran_in(&file, log, spare, chunk, work, &mut lost) {
        Ok(tidied) => {
            let room = parts.len();
            let runs = PackedRuns {
                packed: &work.wanted[..lost.parts],
            };
            put_runs(&runs, parts);
            put_words(&tidied.file, rounded);
            *need = PlainNeed {
                needs: tidied.used as u64,
                has: usable_pairs(&file, spare),
            };
            *loss = PlainLoss {
                pages: lost.pages,
                parts: lost.parts as u64,
            };
            room_status(room, lost.parts)
        }
        Err(GranFault::Refused(_)) => FAULT,
        Err(GranFault::Disabled) => DISABLED,
        Err(GranFault::TooFew { needs, has }) => {
            *need = PlainNeed {
                needs,
                has: has as u64,
            };
            TOO_FEW
        }
    }
}
