ghost use Rattle.mt_laws.specs.Settled.{FirstReleaseFollows, HeldAfterEachFirst, HeldAfterRelease, NoBuffersAtPass, NothingIsStale, SettledAfterEachRelease, StartsFresh};

/// From a release on, and up to the next call, each processor has the goal's registers and holds nothing older than the update.
pub fn settled_after_each_release()
    ensures { SettledAfterEachRelease }
{}

/// Where some processor may pass the first barrier, no buffer is left: what was stored before is in a
/// cache or in memory.
pub fn no_buffers_at_pass()
    ensures { NoBuffersAtPass }
{}

/// From the first release of an update on, each word that no access has stored since is in memory as it was
/// before the first pass. Before each first release that is reached there is such a state.
pub fn held_after_release()
    ensures from { HeldAfterRelease }
    ensures first { FirstReleaseFollows }
    ensures each { HeldAfterEachFirst }
{}

/// At no time does a processor hold a line, buffer or TLB entry of an earlier era than its own, where it
/// holds none at the start.
pub fn nothing_is_stale()
    ensures reached { NothingIsStale }
    ensures start { StartsFresh }
{}
