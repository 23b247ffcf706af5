//! Laws on updates that are led by C's words: what `mt_plain`'s `due` and `did` keep, from the call on.
#![tactic(auto)]

ghost use Rattle.std.specs.Prelude.{◌∷◌, [], None, Some};
ghost use Rattle.mt_plain.specs.WorkedTurns.{called};
ghost use Rattle.mt_plain_laws.specs.Rendezvous.{AreAllowed, BeginsTelling, Books, EachIsTold, Gives, MovesAreLed, NoneRunsInBooks, RendezvousIsLed, BooksTell, moved_to};
ghost use Rattle.mt_plain_laws.specs.WorkedRendezvous.{first_books, ordered, take, two_moves};

/// The books of an update that begins are those of the machine's call.
pub fn books_begin()
    ensures { BeginsTelling }
{}

/// If the books are a machine's whose update is under way, they have what `due` needs of each processor.
pub fn books_are_told()
    ensures { EachIsTold }
{}

/// If the books are a reached machine's: while those of one processor say that it changes its registers, no other's say
/// that it runs.
pub fn none_runs_in_books()
    ensures { NoneRunsInBooks }
{}

/// Where the books are a machine's, a call of `did` that answers that it is done, the go and a cancel lead on to a machine
/// of which the books tell again.
pub fn moves_are_led()
    ensures { MovesAreLed }
{}

/// From the call on the books lead the machine, in any order of the processors' steps and whenever the go is given or
/// the update is cancelled. So what is proved of states that are led to from a call holds of the rendezvous.
pub fn a_rendezvous_is_led()
    ensures { RendezvousIsLed }
{}

/// Books that are a machine's, books that aren't for one thing, moves that are allowed, and moves that aren't.
pub fn worked_books()
    ensures tells { BooksTell first_books called (ordered (Some called)) }
    ensures other_words { BooksTell (moved_to first_books Gives) called (ordered (Some called)) → ⊥ }
    ensures no_order { BooksTell first_books called (ordered None) → ⊥ }
    ensures allowed { AreAllowed first_books two_moves }
    ensures go_comes_once { AreAllowed first_books (Gives ∷ Gives ∷ []) → ⊥ }
    ensures arrives_too_early { AreAllowed first_books (Books 0 (record take { number = 2 }) ∷ []) → ⊥ }
{}
