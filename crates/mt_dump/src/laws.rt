ghost use Rattle.std.specs.Prelude.{◌≡◌, ◌<◌, ◌≤◌, ◌⊎◌, ◌↔◌, ◌∷◌, ◌++◌, ℕ, List, length, not, true, false, Some, None, Ok};
ghost use Rattle.std.specs.List.{AllByRecursion, list_all};
ghost use Rattle.mt_text.specs.Text.{is_line_end, lines_of, longest_line};
ghost use Rattle.mt_regs.specs.RegisterFile.{RegisterFile};
ghost use Rattle.mt_regs.specs.Words.{HasWords};
ghost use Rattle.mt_dump.specs.Canon.{canon};
ghost use Rattle.mt_dump.specs.Dump.{Shown, said_by, tells_version};
ghost use Rattle.mt_dump.specs.Dumps.{Dump, IsDump, dump_of};
ghost use Rattle.mt_dump.specs.Plain.{PlainlyShown};
ghost use Rattle.mt_dump.specs.Reader.{dump_offence, read_text};
ghost use Rattle.mt_dump.specs.declared.fault.DumpFault.{DumpFault};

use mt_regs::RegFile;

/// A text shows one dump at most.
pub fn a_text_shows_one_dump()
    ensures { (text : List ℕ) (dump other : Dump) → Shown text dump → Shown text other → dump ≡ other }
{}

/// A text is read as a dump if and only if it shows the dump.
pub fn a_text_is_read_as_what_it_shows()
    ensures { (text : List ℕ) (dump : Dump) → (read_text text ≡ Ok dump) ↔ Shown text dump }
{}

/// A text shows a dump if and only if it has no offence.
pub fn a_text_shows_a_dump_or_has_an_offence()
    ensures shown { (text : List ℕ) (dump : Dump) → Shown text dump → dump_offence text ≡ None }
    ensures decided { (text : List ℕ) → ((dump : Dump) × Shown text dump) ⊎ ((fault : DumpFault) × (dump_offence text ≡ Some fault)) }
{}

/// What a text shows is a dump.
pub fn what_a_text_shows_is_a_dump()
    ensures { (text : List ℕ) (dump : Dump) → Shown text dump → IsDump dump }
{}

/// A dump is of version 1 where the first line with words isn't a `version` line.
pub fn a_dump_is_of_version_1_where_no_other_is_told()
    ensures { (text : List ℕ) (dump : Dump) → Shown text dump → tells_version (said_by text) ≡ false → dump.version ≡ 1 }
{}

/// The canonical text of a dump shows the dump.
pub fn the_canonical_text_shows_its_dump()
    ensures { (dump : Dump) → IsDump dump → AllByRecursion HasWords dump.files → Shown (canon dump) dump }
{}

/// Canonical texts are equal if and only if the dumps are.
pub fn canonical_texts_are_equal_where_dumps_are()
    ensures { (dump other : Dump) → IsDump dump → IsDump other → AllByRecursion HasWords dump.files → AllByRecursion HasWords other.files → ((canon dump ≡ canon other) ↔ (dump ≡ other)) }
{}

/// The canonical text of any dump shows it.
pub fn a_dump_is_shown_by_its_text(d: &crate::Dump)
    ensures { Shown (canon d.now) d.now }
{
    d.have_words(); // a fact for the proof
    d.is_dump(); // a fact for the proof
}

/// The canonical text of any register file, as a dump of version 1, shows it.
pub fn a_register_file_is_shown_by_its_text(f: &RegFile)
    ensures { Shown (canon (dump_of f.now)) (dump_of f.now) }
{
    f.has_words(); // a fact for the proof
    let _ = &f.maxphy; // a fact for the proof
}

/// What a text shows in the plain form it shows, where each line keeps to the limit.
pub fn what_is_plainly_shown_is_shown()
    ensures { (text : List ℕ) (file : RegisterFile) → PlainlyShown text file → AllByRecursion (λ line. length line ≤ longest_line) (lines_of text) → Shown text (dump_of file) }
{}

/// A first line that is a comment and keeps to the limit changes nothing of what the text behind it shows.
pub fn a_comment_shows_nothing()
    ensures { (comment text : List ℕ) (dump : Dump) → list_all (λ b. not (is_line_end b)) comment ≡ true → length comment < longest_line
        → Shown text dump → Shown (35 ∷ (comment ++ 10 ∷ text)) dump }
{}
