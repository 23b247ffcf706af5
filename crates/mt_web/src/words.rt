ghost use Rattle.std.specs.Prelude.{◌≡◌, map, string_bytes, IfOk};
ghost use Rattle.mt_web.specs.Words.{words_in};

use std::alloc::{AllocError, Global};
use std::str;

/// The words of a text in which a zero byte ends each. There are none if one of them isn't UTF-8.
pub(crate) fn words_in(alloc: Global, text: &[u8]) -> Result<Vec<String>, AllocError>
    ensures { IfOk result (λ words. map string_bytes words.items ≡ words_in text.now) }
{
    let mut words = Vec::new(alloc);
    let mut word = Vec::new(alloc);
    let mut rest = text;
    'bytes: while let Some((byte, more)) = rest.split_first() {
        if *byte == 0 {
            match str::from_utf8(word.as_slice()) {
                Ok(whole) => words.push(String::from_str(alloc, whole)?)?,
                Err(_) => return Ok(Vec::new(alloc)),
            }
            word.clear();
        } else {
            word.push(*byte)?;
        }
        rest = more;
    }
    Ok(words)
}
