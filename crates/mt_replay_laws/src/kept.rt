ghost use Rattle.mt_replay.specs.Kept.{CommandsFinishOne, CommandsKeep};
ghost use Rattle.mt_replay_laws.specs.Through.{NothingIsStale, ScriptsKeep};

/// Each command that fits keeps what holds of each state of a script.
pub fn commands_keep_a_state()
    ensures { CommandsKeep }
{}

/// A command finishes at most one update of each processor.
pub fn commands_finish_one_update()
    ensures { CommandsFinishOne }
{}

/// What holds of each state holds of each that a whole script comes to.
pub fn scripts_keep_each_state()
    ensures { ScriptsKeep }
{}

/// In each state of a script the count `stale` of each processor is 0.
pub fn nothing_is_stale_in_scripts()
    ensures { NothingIsStale }
{}
