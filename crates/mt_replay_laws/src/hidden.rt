ghost use Rattle.mt_replay_laws.specs.Flat.{ScriptsHideCaches};

/// The value that a transcript shows of each load is that of the flat machine, which has no caches.
pub fn caches_are_never_seen_in_scripts()
    ensures { ScriptsHideCaches }
{}
