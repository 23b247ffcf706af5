ghost use Rattle.std.specs.Prelude.{◌≤◌, ◌^◌, ◌↔◌, IsTrue};
ghost use Rattle.mt_types.specs.Runs.{IsTypeMap};
ghost use Rattle.mt_types.specs.Follow.{MayStandNext};

use crate::Run;
use mt_regs::PageType;

// The number of pages of the largest width, 52 bits.
const MOST_PAGES: u64 = 1 << 40;

// Whether a run may stand where the runs before it end at a page, the last of them with a type.
fn follows(run: &Run, next: u64, before: Option<PageType>) -> bool
    requires { next ≤ 2 ^ 40 }
    ensures { IsTrue result ↔ MayStandNext next before run.now }
{
    let differs = match before {
        None => true,
        Some(kind) => !run.kind.is(kind),
    };
    run.first == next && run.count > 0 && run.count <= MOST_PAGES - next && differs
}

// Whether the runs are a type map.
pub(crate) fn is_type_map(list: &[Run]) -> bool
    ensures { IsTrue result ↔ IsTypeMap list.now }
{
    if list.is_empty() {
        return false;
    }
    let mut next = 0;
    let mut before = None;
    for run in list {
        if !follows(run, next, before) {
            return false;
        }
        next = run.first + run.count;
        before = Some(run.kind);
    }
    true
}
