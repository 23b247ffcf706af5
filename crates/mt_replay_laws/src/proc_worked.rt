// An instance of the law on lines, whose premise isn't plainly met.
ghost use Rattle.std.specs.Prelude.{◌≡◌, ◌∷◌, ◌++◌, [], Some, codes};
ghost use Rattle.mt_kinds.specs.declared.mem_type.MemType.TheVariants.{WB};
ghost use Rattle.mt_ports.specs.declared.status.Status.TheVariants.{Done};
ghost use Rattle.mt_stream.specs.Transcript.{transcript_with};
ghost use Rattle.mt_text.specs.declared.place.Place.{Place};
ghost use Rattle.mt_proc.specs.After.{Served, after_all, answers, end_text};
ghost use Rattle.mt_proc.specs.Proc.{LinesTellRequests, from_point, in_requests};
ghost use Rattle.mt_proc.specs.declared.request.Request.TheVariants.{Disable, Range};

/// The law on lines, at a comment and two requests behind any dump.
pub fn worked_law_of_lines()
    ensures told { LinesTellRequests → (now : Served) (place : Place) → from_point 2 (in_requests now) (Some place) 5 (codes "# none" ∷ codes "disable=7" ∷ codes "base=1 size=2 type=write-back" ∷ [])
        ≡ transcript_with (answers now (Disable 7 ∷ Range 1 2 WB ∷ []) ++ end_text (after_all now (Disable 7 ∷ Range 1 2 WB ∷ []))) Done }
{}
