ghost use Rattle.std.specs.Prelude.{◌≡◌};
ghost use Rattle.mt_regs.specs.PageTypes.{page_type};
ghost use Rattle.mt_explain.specs.Pairs.{matching_pairs};
ghost use Rattle.mt_explain.specs.Rules.{Decides};

use crate::Rule;
use crate::pairs::pairs_at;
use crate::rules::rule_of;
use arrayvec::ArrayVec;
use mt_regs::{PageType, RegFile};

/// A page's type, the rule that gives it, and the numbers of the valid pairs that match the page.
#[derive(Drop)]
pub struct Decision {
    pub kind: PageType,
    pub rule: Rule,
    pub pairs: ArrayVec<u8, 32>,
}

/// What gives a page its type.
pub fn decide(f: &RegFile, page: u64) -> Decision
    ensures kind { result.kind ≡ page_type f.now page }
    ensures rule { Decides f.now page result.rule }
    ensures pairs { result.pairs.items ≡ matching_pairs f.now page }
{
    Decision {
        kind: f.page_type(page),
        rule: rule_of(f, page),
        pairs: pairs_at(f, page),
    }
}
