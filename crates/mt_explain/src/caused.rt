ghost use Rattle.std.specs.Prelude.{◌≡◌, ◌↔◌, ◌≤◌, ◌<◌, ℕ, None, IfOk, IsTrue};
ghost use Rattle.mt_regs.specs.RegisterFile.{page_count};
ghost use Rattle.mt_regs.specs.Faults.{register_fault};
ghost use Rattle.mt_explain.specs.Causes.{AreCauses, cause_at};
ghost use Rattle.mt_explain.specs.Deciders.{decider_of};
ghost use Rattle.mt_explain.specs.Memory.{AreInOrder, misfit_at};

use crate::decided::{decider_edge, decider_of, same_decider};
use crate::mapped::{misfit_at, misfit_edge, same_misfit};
use crate::marked::Marked;
use crate::walk::spans;
use crate::{Cause, Span};
use mt_memory_kinds::MemoryRange;
use mt_regs::RegFile;
use std::alloc::{AllocError, Global};

fn same_cause(a: &Cause, b: &Cause) -> bool
    ensures { IsTrue result ↔ (a.now ≡ b.now) }
{
    same_misfit(a.misfit, b.misfit) && same_decider(&a.decider, &b.decider)
}

// A map and a file: a page of memory whose type doesn't fit has both as its mark, with the registers that decide.
#[derive(Drop)]
struct Caused<'a> {
    file: &'a RegFile,
    ranges: &'a [MemoryRange],
}

impl<'a> Marked for Caused<'a> {
    type Mark = Cause;

    ghost size = { λ c. page_count c.file.now };

    ghost marks = { λ c page. cause_at c.file.now c.ranges.now page };

    ghost is_checked = { λ c. (register_fault c.file.now ≡ None) × AreInOrder c.ranges.now };

    fn pages(&self) -> u64 {
        self.file.pages()
    }

    fn mark_at(&self, page: u64) -> Option<Cause> {
        match misfit_at(self.file, self.ranges, page) {
            Some(misfit) => Some(Cause {
                misfit,
                decider: decider_of(self.file, page),
            }),
            None => None,
        }
    }

    fn has(&self, page: u64, mark: &Cause) -> bool {
        match self.mark_at(page) {
            Some(cause) => same_cause(&cause, mark),
            None => false,
        }
    }

    fn next_edge(&self, page: u64) -> u64 {
        misfit_edge(self.file, self.ranges, page).min(decider_edge(self.file, page, self.pages()))
    }
}

/// The longest runs of pages whose type doesn't fit their memory, each with what doesn't fit and with the registers that give its
/// pages their type, in ascending order: the pages of `misfits`, cut where other registers decide. No register of the file is at fault
/// by itself. The ranges are in ascending order and share no page. Fails only if an allocation fails.
pub fn causes(
    alloc: Global,
    f: &RegFile,
    ranges: &[MemoryRange],
) -> Result<Vec<Span<Cause>>, AllocError>
    requires checked { register_fault f.now ≡ None }
    requires order { AreInOrder ranges.now }
    ensures { IfOk result (λ causes. AreCauses f.now ranges.now causes.items) }
{
    spans(alloc, &Caused { file: f, ranges })
}
