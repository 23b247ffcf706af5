// Laws on accesses to pages that one processor alone names. Each is the contract of a function that does nothing.
ghost use Rattle.std.specs.Prelude.{◌≡◌, ℕ, Some, slice_get};
ghost use Rattle.mt_machine.specs.System.{Processor, System as MachineSystem};
ghost use Rattle.mt_private.specs.Alone.{AccessesCommute, AccessesRunAlone, JobsRunAlone, StepsRunAlone, UpdatesRunAlone};
ghost use Rattle.mt_private.specs.Own.{IsOwner, pages_of};
ghost use Rattle.mt_private.specs.Pages.{IsPrivate};

/// Where no page is named by two processors, each owns the pages that it names.
pub fn private_pages_are_owned()
    ensures { (s : MachineSystem) (k : ℕ) (p : Processor) → IsPrivate s → slice_get s.processors k ≡ Some p → IsOwner (pages_of p) k s }
{}

/// Accesses of a processor to pages that it owns are those of its own system, which has no other processor, and in which
/// all words outside these pages are 0: the answers are the same, its own system becomes what it becomes alone, and all
/// other processors and words stay as they are. No snoop, eviction, buffer or fill reaches beyond its pages.
pub fn own_accesses_run_alone()
    ensures { AccessesRunAlone }
{}

/// A step of an update that writes no memory, or only in pages that its processor owns, is that of the processor's own
/// system.
pub fn own_steps_run_alone()
    ensures { StepsRunAlone }
{}

/// Accesses of two processors to pages of their own commute.
pub fn own_accesses_commute()
    ensures { AccessesCommute }
{}

/// If no page is named by two processors, a whole update with the takes in ascending order is for each that of its own
/// system. The words of pages that none names stay.
pub fn whole_updates_run_alone()
    ensures { UpdatesRunAlone }
{}

/// If no page is named by two processors, jobs around a whole update, one by one, are for each its job in its own
/// system. The answers are those, its own system becomes what it becomes alone, and the words of pages that none names
/// stay.
pub fn jobs_run_alone()
    ensures { JobsRunAlone }
{}
