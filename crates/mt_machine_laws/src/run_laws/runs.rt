ghost use Rattle.mt_laws.specs.Runs.{LedIsReached, LedIsRun, ReachedIsRun};

/// A reached state is the state after a list of enabled events, and the other way round.
pub fn reached_is_run()
    ensures { ReachedIsRun }
{}

/// What go, cancel and steps alone lead to, is reached.
pub fn led_is_reached()
    ensures { LedIsReached }
{}

/// What go, cancel and steps alone lead to is the state after a list of enabled ones, and the other way round.
pub fn led_is_run()
    ensures { LedIsRun }
{}
