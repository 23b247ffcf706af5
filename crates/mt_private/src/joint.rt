// The words of an own system, joined with those of the whole.
ghost use Rattle.std.specs.Prelude.{◌≡◌, length};
ghost use Rattle.mt_private.specs.Left.{word_beside, word_by_word};

use mt_ram::Ram;

/// What stands at a word beside the own one of a processor.
#[derive(Clone, Copy)]
pub enum Joint {
    /// The word where the own one is 0, else 0.
    Less,
    /// The own word where it isn't 0, else the word.
    Over,
}

// What stands at a word beside the own one.
fn word_beside(joint: Joint, own: u64, word: u64) -> u64
    ensures { result ≡ word_beside joint own word }
{
    match joint {
        _ if own == 0 => word,
        Joint::Less => 0,
        Joint::Over => own,
    }
}

// Puts at each word what stands there beside the own one.
pub(crate) fn put_words(joint: Joint, own: &Ram, ram: &mut Ram)
    requires { length own.now.words ≡ length ram.old.words }
    ensures { ram.new ≡ record ram.old { words = word_by_word (word_beside joint) own.now.words ram.old.words } }
{
    for i in 0..ram.words() {
        let word = word_beside(joint, own.word(i), ram.word(i));
        ram.put(i, word);
    }
}
