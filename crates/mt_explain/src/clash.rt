ghost use Rattle.std.specs.Prelude.{◌≡◌, None, IfOk};
ghost use Rattle.mt_regs.specs.RegisterFile.{page_count};
ghost use Rattle.mt_regs.specs.Faults.{register_fault};
ghost use Rattle.mt_explain.specs.Clashes.{AreClashes, clash_mark};

use crate::Span;
use crate::marked::Marked;
use crate::pairs::pairs_at;
use crate::walk::spans;
use arrayvec::ArrayVec;
use mt_regs::RegFile;
use std::alloc::{AllocError, Global};

/// Pages that have no defined type, marked by the numbers of the pairs that match each of them.
pub type Clash = Span<ArrayVec<u8, 32>>;

// A file, whose pages of no defined type have a mark.
#[derive(Drop)]
struct Clashing<'a> {
    file: &'a RegFile,
}

impl<'a> Marked for Clashing<'a> {
    type Mark = ArrayVec<u8, 32>;

    ghost size = { λ c. page_count c.file.now };

    ghost marks = { λ c page. clash_mark c.file.now page };

    ghost is_checked = { λ c. register_fault c.file.now ≡ None };

    fn pages(&self) -> u64 {
        self.file.pages()
    }

    fn mark_at(&self, page: u64) -> Option<ArrayVec<u8, 32>> {
        if self.file.page_type(page).is_undefined() {
            Some(pairs_at(self.file, page))
        } else {
            None
        }
    }

    fn has(&self, page: u64, mark: &ArrayVec<u8, 32>) -> bool {
        match self.mark_at(page) {
            Some(pairs) => pairs.as_slice() == mark.as_slice(),
            None => false,
        }
    }

    fn next_edge(&self, page: u64) -> u64 {
        self.file.next_edge(page)
    }
}

/// The longest runs of pages that have no defined type and that the same pairs match, in ascending order, of a file none of whose
/// registers is at fault by itself. Fails only if an allocation fails.
pub fn clashes(alloc: Global, f: &RegFile) -> Result<Vec<Clash>, AllocError>
    requires { register_fault f.now ≡ None }
    ensures { IfOk result (λ clashes. AreClashes f.now clashes.items) }
{
    spans(alloc, &Clashing { file: f })
}
