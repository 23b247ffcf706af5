ghost use Rattle.std.specs.Prelude.{◌≡◌};
ghost use Rattle.mt_explain.specs.Effective.{effective_types};

use mt_kinds::{MemType, Pat, effective};

/// The types in effect for a page of this MTRR type, by the entry of the PAT that its mapping chooses, entry 0 first.
pub fn effective_types(kind: MemType, pat: u64) -> [MemType; 8]
    ensures { result ≡ effective_types kind pat }
{
    let pat = Pat(pat);
    [
        effective(kind, pat.entry(0)),
        effective(kind, pat.entry(1)),
        effective(kind, pat.entry(2)),
        effective(kind, pat.entry(3)),
        effective(kind, pat.entry(4)),
        effective(kind, pat.entry(5)),
        effective(kind, pat.entry(6)),
        effective(kind, pat.entry(7)),
    ]
}
