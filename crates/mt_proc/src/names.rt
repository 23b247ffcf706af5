ghost use Rattle.std.specs.Prelude.{◌≡◌, ◌≤◌, length};
ghost use Rattle.mt_proc.specs.Requests.{is_name, name_of, type_named};

use mt_kinds::MemType;

/// The name of a type in Linux's mtrr document.
pub(crate) fn name_of(kind: MemType) -> &'static [u8]
    ensures text { result.now ≡ name_of kind }
    ensures short { length result.now ≤ 15 }
{
    match kind {
        MemType::UC => b"uncachable",
        MemType::WC => b"write-combining",
        MemType::WT => b"write-through",
        MemType::WP => b"write-protect",
        MemType::WB => b"write-back",
    }
}

fn is_name(kind: MemType, word: &[u8]) -> bool
    ensures { result ≡ is_name kind word.now }
{
    word == name_of(kind)
}

/// The type of a name, which is written out and in small letters.
pub(crate) fn type_named(word: &[u8]) -> Option<MemType>
    ensures { result ≡ type_named word.now }
{
    if is_name(MemType::UC, word) {
        Some(MemType::UC)
    } else if is_name(MemType::WC, word) {
        Some(MemType::WC)
    } else if is_name(MemType::WT, word) {
        Some(MemType::WT)
    } else if is_name(MemType::WP, word) {
        Some(MemType::WP)
    } else if is_name(MemType::WB, word) {
        Some(MemType::WB)
    } else {
        None
    }
}
