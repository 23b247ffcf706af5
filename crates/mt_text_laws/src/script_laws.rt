ghost use Rattle.std.specs.Prelude.{◌≡◌, ◌<◌, ◌↔◌, ◌⊎◌, ℕ, List, Ok, Err, None, true};
ghost use Rattle.mt_script.specs.Situation.{Situation};
ghost use Rattle.mt_script.specs.Accept.{Fits, accepted};
ghost use Rattle.mt_script.specs.Kept.{IsSituation};
ghost use Rattle.mt_script.specs.Commands.{command_of};
ghost use Rattle.mt_script.specs.Newcomers.{brings_up};
ghost use Rattle.mt_text_laws.specs.Places.{StandsIn};
ghost use Rattle.mt_script.specs.declared.fault.ScriptFault.{ScriptFault};
ghost use Rattle.mt_script.specs.Script.{script_offence, IsGoodScript};
ghost use Rattle.mt_script.specs.declared.command.Command.{Command};
ghost use Rattle.mt_script.specs.declared.command.Command.TheVariants as command;
ghost use Rattle.mt_script.specs.declared.command.Newcomer.{Newcomer};

/// Each command that a line is read as fits the situation.
pub fn a_command_fits()
    ensures { (now : Situation) (number : ℕ) (line : List ℕ) (command : Command) → command_of now number line ≡ Ok command → Fits now command }
{}

/// A script has no offence exactly where each line is accepted in its turn, its lines show a dump with a file
/// for each processor or in version 1 one for all, and it may end where it ends.
pub fn a_script_is_good_or_has_an_offence()
    ensures { (text : List ℕ) → (script_offence text ≡ None) ↔ IsGoodScript text }
{}

/// Each fault of a line stands at a word that the line has, or past the limit of a line that is too long.
pub fn a_fault_stands_in_its_line()
    ensures { (now : Situation) (number : ℕ) (line : List ℕ) (fault : ScriptFault) → command_of now number line ≡ Err fault → StandsIn number line fault.place }
{}

/// A `selfsnoop` line names a processor that there is: it stands among the windows, where none has come or gone yet.
pub fn a_selfsnoop_names_a_processor()
    ensures { (now : Situation) (k : ℕ) → IsSituation now → Fits now (command.Selfsnoop k) → k < now.cpus }
{}

/// Processors may have come or gone exactly from the first `up`, `join` or `retire` line on.
pub fn processors_move_by_their_lines()
    ensures { (now : Situation) (c : Command) → ((accepted now c).moving ≡ true) ↔ ((now.moving ≡ true) ⊎ (((n : Newcomer) × (c ≡ command.Newcomer n)) ⊎ (c ≡ command.Retire))) }
{}

/// A line that brings a processor up begins with the word `up` or `join`.
pub fn newcomers_come_by_their_lines()
    ensures { (now : Situation) (number : ℕ) (line : List ℕ) (n : Newcomer) → command_of now number line ≡ Ok (command.Newcomer n) → brings_up line ≡ true }
{}
