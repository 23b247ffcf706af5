// Instances of the relations in the contract of the top call: runs that they allow, and runs that they don't.
ghost use Rattle.std.specs.Prelude.{◌∷◌, [], codes, List, None, Some, ℕ};
ghost use Rattle.mt_ports.specs.declared.status.Status.TheVariants as status;
ghost use Rattle.mt_script.specs.Newcomers.{IsWithoutNewcomers};
ghost use Rattle.mt_answers.specs.declared.command.Command.TheVariants.{Serial};
ghost use Rattle.mt_answers.specs.declared.command.SerialCommand.TheVariants as asks;
ghost use Rattle.mt_answers.specs.declared.command.DumpCommand.TheVariants as of_dump;
ghost use Rattle.mt_answers.specs.CommandLine.{MayTakeMemory, command_of};
ghost use Rattle.mt_answers.specs.Answer.{MayChoose};
ghost use Rattle.mt_answers.specs.Statuses.{MayEnd};
ghost use Rattle.mt_output.specs.Ports.{held};
ghost use Rattle.mt_cli.specs.Tool.{CutShort, FailedRead, Finished, Overran, Reads, Starved, took};

/// What a run may leave in its source and sink, and what it can't.
pub fn worked_endings()
    ensures finished { Finished [] (held (codes "x") (Some (codes "x"))) (took (codes "a") (Some (codes "ausage\n"))) status.Usage }
    ensures not_written { Finished [] (held (codes "x") (Some (codes "x"))) (took (codes "a") (Some (codes "a"))) status.Usage → ⊥ }
    ensures other_status { Finished [] (held (codes "x") (Some (codes "x"))) (took (codes "a") (Some (codes "ausage\n"))) status.Done → ⊥ }
    ensures something_read { Finished [] (held (codes "x") (Some [])) (took (codes "a") (Some (codes "ausage\n"))) status.Usage → ⊥ }
    ensures cut_short { CutShort [] [] (took (codes "a") (Some (codes "aus"))) }
    ensures no_front { CutShort [] [] (took (codes "a") (Some (codes "ax"))) → ⊥ }
    ensures lost_before { CutShort [] [] (took (codes "a") (Some [])) → ⊥ }
    ensures failed_read { FailedRead (command_of []) (held [] None) (took (codes "a") (Some (codes "a"))) }
    ensures written_at_a_failed_read { FailedRead (command_of []) (held [] None) (took (codes "a") (Some (codes "au"))) → ⊥ }
    ensures written_at_too_long { Overran (command_of []) [] [] (took (codes "a") (Some (codes "au"))) → ⊥ }
    ensures starved { Starved [] [] (took (codes "a") (Some (codes "a"))) }
    ensures more_without_memory { (bytes : List ℕ) → IsWithoutNewcomers bytes → Starved (codes "replay" ∷ []) bytes (took [] (Some (codes "accepted\nok\n"))) → ⊥ }
    ensures other_line_behind_a_newcomer { Starved (codes "replay" ∷ []) (codes "cpus 1\ndump\n0fe 0\nend\ncr3 0\njoin\n") (took [] (Some (codes "x"))) → ⊥ }
    ensures reads_usage { Reads [] (held (codes "x") (Some [])) status.Usage → ⊥ }
    ensures reads_too_long { Reads [] (held (codes "x") (Some [])) status.TooLong → ⊥ }
    ensures reads_to_the_end { Reads (codes "check" ∷ []) (held (codes "x") (Some (codes "x"))) status.Done → ⊥ }
{}

/// A command that may lack pairs, statuses that other commands never return, and commands that
/// take no memory or have only one output.
#[tactic(auto, unfolding(mt_gran::specs::Sizes::log_among))]
pub fn worked_statuses()
    ensures tidy_lacks_pairs { MayEnd (command_of (codes "tidy" ∷ [])) status.TooFew }
    ensures types_lacks_none { MayEnd (command_of (codes "types" ∷ [])) status.TooFew → ⊥ }
    ensures proc_finds_none_off { MayEnd (command_of (codes "proc" ∷ codes "2" ∷ [])) status.Disabled → ⊥ }
    ensures make_refuses_nothing { MayEnd (command_of (codes "make" ∷ codes "7" ∷ [])) status.Refused → ⊥ }
    ensures big_finds_no_offence { MayEnd (command_of (codes "big" ∷ codes "7" ∷ [])) status.BadText → ⊥ }
    ensures private_reads_nothing { MayEnd (command_of (codes "private" ∷ codes "2" ∷ codes "7" ∷ codes "0" ∷ [])) status.ReadFault → ⊥ }
    ensures help_reads_nothing { MayEnd (command_of (codes "--help" ∷ [])) status.ReadFault → ⊥ }
    ensures no_words_are_too_long { MayEnd (command_of []) status.TooLong → ⊥ }
    ensures no_memory_for_show { MayTakeMemory (Serial (asks.Dump of_dump.Show)) → ⊥ }
    ensures no_memory_for_page { MayTakeMemory (Serial (asks.Dump (of_dump.Page 0 0))) → ⊥ }
    ensures no_memory_for_tidy { MayTakeMemory (Serial (asks.Dump (of_dump.Tidy 1 0))) → ⊥ }
    ensures no_memory_for_help { MayTakeMemory (Serial asks.Help) → ⊥ }
    ensures one_map { MayChoose of_dump.Types → ⊥ }
    ensures one_page { MayChoose (of_dump.Page 0 0) → ⊥ }
    ensures one_check { MayChoose of_dump.Check → ⊥ }
    ensures one_text { MayChoose of_dump.Show → ⊥ }
{}
