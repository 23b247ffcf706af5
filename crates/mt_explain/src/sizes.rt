ghost use Rattle.std.specs.Prelude.{◌≡◌, None};
ghost use Rattle.mt_regs.specs.RegisterFile.{page_count};
ghost use Rattle.mt_regs.specs.Faults.{register_fault};
ghost use Rattle.mt_explain.specs.Sizes.{type_mark, type_pages};

use crate::marked::Marked;
use crate::walk::marked_pages;
use mt_regs::{PageType, RegFile, same_page_type};

// A file, whose pages of one type have it as their mark.
#[derive(Drop)]
struct Typed<'a> {
    file: &'a RegFile,
    kind: PageType,
}

impl<'a> Marked for Typed<'a> {
    type Mark = PageType;

    ghost size = { λ c. page_count c.file.now };

    ghost marks = { λ c page. type_mark c.file.now c.kind page };

    ghost is_checked = { λ c. register_fault c.file.now ≡ None };

    fn pages(&self) -> u64 {
        self.file.pages()
    }

    fn mark_at(&self, page: u64) -> Option<PageType> {
        let kind = self.file.page_type(page);
        if same_page_type(kind, self.kind) {
            Some(kind)
        } else {
            None
        }
    }

    fn has(&self, page: u64, mark: &PageType) -> bool {
        match self.mark_at(page) {
            Some(kind) => kind.is(*mark),
            None => false,
        }
    }

    fn next_edge(&self, page: u64) -> u64 {
        self.file.next_edge(page)
    }
}

/// How many pages have this type. No register of the file is at fault by itself.
pub fn type_pages(f: &RegFile, kind: PageType) -> u64
    requires { register_fault f.now ≡ None }
    ensures { result ≡ type_pages f.now kind }
{
    marked_pages(&Typed { file: f, kind })
}
