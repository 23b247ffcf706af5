ghost use Rattle.std.specs.Prelude.{◌≡◌, ◌↔◌, IfOk, IfSome, IsTrue};
ghost use Rattle.mt_regs.specs.StartFiles.{SameKind};
ghost use Rattle.mt_mend.specs.Writes.{AreNamed, AreWrites};

use crate::Write;
use crate::steps::changes;
use mt_regs::RegFile;
use std::alloc::{AllocError, Global};

// Whether two files are of one width and have one capability value.
fn are_of_one_kind(a: &RegFile, b: &RegFile) -> bool
    ensures { IsTrue result ↔ SameKind a.now b.now }
{
    a.maxphy == b.maxphy && a.cap == b.cap
}

/// The writes that make of one file another one, as by `changes`, if they are of one width and have one capability value. Fails only
/// if an allocation fails.
pub fn changes_between(
    alloc: Global,
    old: &RegFile,
    new: &RegFile,
) -> Result<Option<Vec<Write>>, AllocError>
    ensures writes { IfOk result (λ list. IfSome list (λ ws. AreWrites old.now ws.items new.now)) }
    ensures named { IfOk result (λ list. IfSome list (λ ws. AreNamed old.now new.now ws.items)) }
{
    if !are_of_one_kind(old, new) {
        return Ok(None);
    }
    Ok(Some(changes(alloc, old, new)?))
}
