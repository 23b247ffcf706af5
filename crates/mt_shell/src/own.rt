ghost use Rattle.std.specs.Prelude.{◌≡◌, MatchOption, None, Some, map, string_bytes};
ghost use Rattle.mt_shell.specs.Own.{own_text, own_text_of};

fn own_text_of<'a>(word: &[u8], help: &'a [u8], version: &'a [u8]) -> Option<&'a [u8]>
    ensures { MatchOption result (own_text_of word.now help.now version.now ≡ None) (λ text. own_text_of word.now help.now version.now ≡ Some text.now) }
{
    if word == b"--help".as_slice() || word == b"-h".as_slice() {
        Some(help)
    } else if word == b"--version".as_slice() {
        Some(version)
    } else {
        None
    }
}

/// The text that these words ask for: the help if they are `--help` or `-h` alone, the version if they are `--version` alone.
pub fn own_text<'a>(words: &[String], help: &'a [u8], version: &'a [u8]) -> Option<&'a [u8]>
    ensures { let words = map string_bytes words.now in
        MatchOption result (own_text words help.now version.now ≡ None) (λ text. own_text words help.now version.now ≡ Some text.now) }
{
    match words {
        [word] => own_text_of(word.as_bytes(), help, version),
        _ => None,
    }
}
