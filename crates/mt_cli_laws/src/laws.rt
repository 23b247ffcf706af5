ghost use Rattle.std.specs.Prelude.{◌≡◌, ◌≢◌, ◌+◌, ◌++◌, ◌^◌, ◌<◌, ◌≤◌, ◌↔◌, ℕ, List, None, Some};
ghost use Rattle.mt_ports.specs.declared.status.Status.{Status};
ghost use Rattle.mt_ports.specs.declared.status.Status.TheVariants.{Done};
ghost use Rattle.mt_answers.specs.declared.command.DumpCommand.{DumpCommand};
ghost use Rattle.mt_answers.specs.declared.command.Command.TheVariants.{Serial};
ghost use Rattle.mt_answers.specs.declared.command.SerialCommand.TheVariants.{Dump};
ghost use Rattle.mt_answers.specs.CommandLine.{command_of};
ghost use Rattle.mt_answers.specs.Lines.{used_line};
ghost use Rattle.mt_answers.specs.Answer.{MayChoose};
ghost use Rattle.mt_cli.specs.Output.{Output};
ghost use Rattle.mt_dump.specs.Canon.{canon};
ghost use Rattle.mt_dump.specs.Dump.{Shown};
ghost use Rattle.mt_dump.specs.Dumps.{Dump as Shows, dump_of};
ghost use Rattle.std.specs.List.{All};
ghost use Rattle.mt_regs.specs.Faults.{IsAccepted};
ghost use Rattle.mt_output.specs.Lines.{accepted_line};
ghost use Rattle.mt_replay.specs.Newcomers.{early_text};
ghost use Rattle.mt_script.specs.Newcomers.{IsWithoutNewcomers};
ghost use Rattle.mt_script.specs.Script.{script_offence};
ghost use Rattle.mt_replay.specs.Statuses.{ShowsDump};
ghost use Rattle.mt_replay.specs.Transcript.{transcript};
ghost use Rattle.mt_answers.specs.Generator.{make_text};

use mt_dump::a_register_file_is_shown_by_its_text;
use mt_regs::RegFile;

/// Words and bytes have at most one status, and at most one text, except for a tidied or rounded file: several lists of
/// ranges may be the least. So each cause of a status holds both ways.
pub fn words_and_bytes_have_one_output()
    ensures status { (words : List (List ℕ)) (bytes text other : List ℕ) (s t : Status) → Output words bytes text s → Output words bytes other t → s ≡ t }
    ensures text { (words : List (List ℕ)) (bytes text other : List ℕ) (s t : Status) → Output words bytes text s → Output words bytes other t
        → ((command : DumpCommand) → command_of words ≡ Some (Serial (Dump command)) → MayChoose command → s ≢ Done) → text ≡ other }
{}

/// Each command line and each input have an output.
pub fn words_and_bytes_have_an_output()
    ensures { (words : List (List ℕ)) (bytes : List ℕ) → (text : List ℕ) × (status : Status) × Output words bytes text status }
{}

/// What `tidy` writes is again a dump: the canonical text of the dump of a file alone behind the line of a number of pairs shows that dump.
pub fn a_tidied_text_is_a_dump(f: &RegFile)
    ensures { (used : ℕ) → used < 2 ^ 64 → Shown (used_line used ++ canon (dump_of f.now)) (dump_of f.now) }
{
    a_register_file_is_shown_by_its_text(f); // a fact for the proof
}

/// Each text for measurements is a script without an offence, and the files of its dump are
/// accepted. So its transcript ends with Done.
pub fn a_made_text_is_a_script()
    ensures offence { (n : ℕ) → script_offence (make_text n) ≡ None }
    ensures dump { (n : ℕ) → (dump : Shows) × ShowsDump (make_text n) dump × All IsAccepted dump.files }
    ensures status { (n : ℕ) → (transcript (make_text n)).status ≡ Done }
{}

/// If an allocation fails, a script without `up` and `join` lines has written at most the line `accepted`.
pub fn memory_is_wanted_early_without_newcomers()
    ensures { (text : List ℕ) → IsWithoutNewcomers text → early_text text ≡ accepted_line }
{}
