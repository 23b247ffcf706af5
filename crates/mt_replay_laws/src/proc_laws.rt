ghost use Rattle.std.specs.Prelude.{◌≡◌, ◌↔◌, ◌+◌, ◌++◌, ◌<◌, ℕ, List};
ghost use Rattle.mt_text.specs.Text.{lines_of};
ghost use Rattle.mt_regs.specs.RegisterFile.{IsRegisterFile, RegisterFile};
ghost use Rattle.mt_stream.specs.Known.{known_text};
ghost use Rattle.mt_stream.specs.Transcript.{transcript};
ghost use Rattle.mt_proc.specs.After.{Served, answer_text, asked, done_text};
ghost use Rattle.mt_proc.specs.declared.request.Request.{Request as Asked};
ghost use Rattle.mt_proc.specs.Proc.{LinesTellRequests, proc_told};
ghost use Rattle.mt_proc.specs.Listing.{all_asked, listing, ranges_of, requests_from};
ghost use Rattle.mt_replay_laws.specs.ProcCourses.{TellsOfMachines};

/// The lines of a file's valid pairs are read as requests for exactly the blocks and types of these
/// pairs, in order, wherever the lines stand.
pub fn listings_ask_for_their_ranges()
    ensures { (f : RegisterFile) (number : ℕ) → IsRegisterFile f → requests_from number (lines_of (listing f)) ≡ all_asked (ranges_of f) }
{}

/// Where no line behind the dump has a fault, the text is the fold's: what each request is answered by
/// the file that those before it left, and at the end the ranges of the last file and the number of
/// requests that were carried out.
pub fn lines_tell_of_their_requests()
    ensures { LinesTellRequests }
{}

/// A request is told as carried out exactly where the count of those that were goes up, and where it
/// is told otherwise the file and the count stand.
pub fn what_is_carried_out_is_told()
    ensures told { (now : Served) (request : Asked) → ((n : ℕ) × (answer_text now request ≡ done_text request n)) ↔ ((asked now request).count ≡ now.count + 1) }
    ensures stands { (now : Served) (request : Asked) → ((n : ℕ) → answer_text now request ≡ done_text request n → ⊥) → asked now request ≡ now }
{}

/// What `proc` tells of a text is told of machines. Behind each line `set` or `cleared` every processor has the file that was
/// asked for and is settled. Any other answer changes no processor.
pub fn texts_tell_of_machines()
    ensures { (cpus : ℕ) (text : List ℕ) → 0 < cpus → TellsOfMachines cpus text }
{}

/// What the known lines of a front tell is a front of what the whole text tells, whatever bytes come
/// behind.
pub fn known_lines_tell_a_front()
    ensures { (cpus : ℕ) (front more : List ℕ) → (rest : List ℕ) × ((transcript (proc_told cpus) (front ++ more)).text ≡ known_text (proc_told cpus) front ++ rest) }
{}
