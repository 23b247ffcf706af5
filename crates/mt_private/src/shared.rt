// What the threads of a run share.
ghost use Rattle.std.specs.Prelude.{◌≡◌, ◌<◌, Some, length, slice_get};

use crate::host::Yard;
use crate::job::Job;
use mt_regs::RegFile;

/// The yard, its goal, and the job of each processor.
#[derive(Drop)]
pub struct Shared {
    pub yard: Yard,
    pub goal: RegFile,
    pub jobs: Vec<Job>,
    pub ghost same: { goal ≡ yard.table.shared.key.goal.value },
    pub ghost one_each: { length jobs.items ≡ yard.count },
}

// The job of processor k.
pub(crate) fn job_of(shared: &Shared, k: usize) -> &Job
    requires { k < length shared.now.jobs.items }
    ensures { slice_get shared.now.jobs.items k ≡ Some result.now }
{
    &shared.jobs[k]
}
