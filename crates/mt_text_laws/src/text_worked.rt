// Relations that laws alone cite: what meets one, and for each part what fails in that alone.
ghost use Rattle.std.specs.Prelude.{◌≡◌, ◌∷◌, [], codes, None, Ok, Err};
ghost use Rattle.mt_text.specs.Feed.{HasTakenBytes, LendsFirst, LendsLines, LendsSlice, at_offset, at_start, behind_a_line};
ghost use Rattle.mt_text.specs.declared.fault.FeedFault.TheVariants.{ReadFault};
ghost use Rattle.mt_text.specs.declared.line.Line.{Line};
ghost use Rattle.mt_text.specs.Text.{HasWord, StandInOrder, words_of};

/// A line that a feed lends of the bytes that are left.
pub fn worked_lent_lines()
    ensures line { (line : Line) → line.bytes.now ≡ codes "ab" → line.number ≡ 1 → LendsFirst at_start (behind_a_line 2 (codes "c")) (codes "ab\ncd") (codes "d") line }
    ensures other_bytes { (line : Line) → line.bytes.now ≡ codes "a" → LendsFirst at_start (behind_a_line 2 (codes "c")) (codes "ab\ncd") (codes "d") line → ⊥ }
    ensures other_number { (line : Line) → line.number ≡ 2 → LendsFirst at_start (behind_a_line 2 (codes "c")) (codes "ab\ncd") (codes "d") line → ⊥ }
    ensures byte_lost { (line : Line) → LendsFirst at_start (behind_a_line 2 []) (codes "ab\ncd") (codes "d") line → ⊥ }
    ensures other_next { (line : Line) → LendsFirst at_start (behind_a_line 3 (codes "c")) (codes "ab\ncd") (codes "d") line → ⊥ }
{}

/// The slice of all bytes that a lent line is.
pub fn worked_slices()
    ensures line { (line : Line) → line.bytes.now ≡ codes "cd" → line.offset ≡ 3 → line.next ≡ 6 → LendsSlice (at_offset 6 (codes "ef")) (codes "ab\n") (codes "ab\ncd\nef") line }
    ensures other_bytes { (line : Line) → line.bytes.now ≡ codes "ef" → line.offset ≡ 3 → LendsSlice (at_offset 6 (codes "ef")) (codes "ab\n") (codes "ab\ncd\nef") line → ⊥ }
    ensures other_offset { (line : Line) → line.offset ≡ 2 → LendsSlice (at_offset 6 (codes "ef")) (codes "ab\n") (codes "ab\ncd\nef") line → ⊥ }
    ensures byte_lost { (line : Line) → LendsSlice (at_offset 6 (codes "f")) (codes "ab\n") (codes "ab\ncd\nef") line → ⊥ }
    ensures other_next { (line : Line) → line.next ≡ 5 → LendsSlice (at_offset 6 (codes "ef")) (codes "ab\n") (codes "ab\ncd\nef") line → ⊥ }
{}

/// The bytes that a feed has taken.
pub fn worked_taken()
    ensures later { HasTakenBytes (at_offset 3 (codes "cd")) (codes "ab\n") (codes "ab\ncd") }
    ensures other_offset { HasTakenBytes (at_offset 2 (codes "cd")) (codes "ab\n") (codes "ab\ncd") → ⊥ }
    ensures other_bytes { HasTakenBytes (at_offset 3 (codes "cd")) (codes "ab\n") (codes "ab\nce") → ⊥ }
{}

/// What a call lends that lends no line.
pub fn worked_fronts()
    ensures at_the_end { LendsLines at_start at_start [] [] (Ok None) }
    ensures not_at_the_end { LendsLines at_start at_start (codes "ab") [] (Ok None) → ⊥ }
    ensures more_behind_the_end { LendsLines at_start at_start [] (codes "ab") (Ok None) → ⊥ }
    ensures kept_at_a_fault { LendsLines at_start at_start (codes "ab") (codes "ab") (Err ReadFault) }
    ensures lost_at_a_fault { LendsLines at_start at_start (codes "ab") (codes "b") (Err ReadFault) → ⊥ }
{}

/// Words that stand in their line in order, and a word that a line has.
pub fn worked_words_in_order()
    ensures stand { StandInOrder (codes " ab c") 0 (words_of (codes " ab c")) }
    ensures other_bytes { StandInOrder (codes "ab c") 0 ((0, codes "ax") ∷ []) → ⊥ }
    ensures other_bytes_of_the_second { StandInOrder (codes "ab c") 0 ((0, codes "ab") ∷ (3, codes "b") ∷ []) → ⊥ }
    ensures no_byte { StandInOrder (codes "ab c") 0 ((2, []) ∷ []) → ⊥ }
    ensures overlap { StandInOrder (codes "ab c") 0 ((0, codes "ab") ∷ (1, codes "b") ∷ []) → ⊥ }
    ensures has { HasWord (codes "ab c # d") (3, codes "c") }
    ensures has_at_its_offset { HasWord (codes "ab c") (2, codes "c") → ⊥ }
{}
