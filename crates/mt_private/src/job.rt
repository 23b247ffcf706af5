ghost use Rattle.std.specs.Prelude.{◌≡◌, ◌<◌, IfOk, Some, length, slice_get};
ghost use Rattle.std.specs.List.{All};
ghost use Rattle.mt_machine.specs.Machine.{FitsOp};
ghost use Rattle.mt_private.specs.Jobs.{IsOpen};
ghost use Rattle.mt_private.specs.declared.job.Part.{Part as JobPart};

use mt_machine::{Done, Op};
use mt_ports::NoMemory;
use std::alloc::Global;

/// What a processor accesses before it takes the update, and after it is released. Addresses are as for
/// `Core::access`.
#[derive(Drop)]
pub struct Job {
    pub before: Vec<Op>,
    pub after: Vec<Op>,
}

/// The answers to a job's accesses, in order.
#[derive(Drop)]
pub struct JobAnswers {
    pub before: Vec<Done>,
    pub after: Vec<Done>,
}

/// A part of a job.
#[derive(Clone, Copy, Debug, PartialEq, Eq)]
pub enum Part {
    /// Before the update.
    Before,
    /// After it.
    After,
}

impl JobAnswers {
    /// No answers, and room for those of a job.
    ///
    /// # Errors
    ///
    /// The allocator has no room.
    pub fn new(alloc: Global, job: &Job) -> Result<JobAnswers, NoMemory>
        ensures { IfOk result (λ told. (part : JobPart) → IsOpen part job.now told) }
    {
        let Ok(before) = Vec::with_capacity(alloc, job.before.len()) else {
            return Err(NoMemory);
        };
        let Ok(after) = Vec::with_capacity(alloc, job.after.len()) else {
            return Err(NoMemory);
        };
        Ok(JobAnswers { before, after })
    }
}

// One of the accesses.
pub(crate) fn op_at(ops: &[Op], i: usize) -> Op
    requires place { i < length ops.now }
    requires fits { All FitsOp ops.now }
    ensures at { slice_get ops.now i ≡ Some result }
    ensures fits { FitsOp result }
{
    ops[i]
}
