ghost use Rattle.std.specs.Prelude.{◌≡◌, ◌++◌, List, ℕ};
ghost use Rattle.mt_stream.specs.Known.{known_text};
ghost use Rattle.mt_replay.specs.Transcript.{replay_told, transcript};

/// What the known lines of a front of a script write is a front of the script's transcript, whatever
/// bytes come behind.
pub fn known_lines_write_a_front()
    ensures { (front more : List ℕ) → (rest : List ℕ) × ((transcript (front ++ more)).text ≡ known_text replay_told front ++ rest) }
{}
