ghost use Rattle.std.specs.Prelude.{◌≡◌, ◌≤◌, ◌<◌, Some, IfOk};
ghost use Rattle.mt_explain.specs.Spans.{AreSpans, IsLongest, marked_pages, span_end};

use crate::Span;
use crate::marked::Marked;
use std::alloc::{AllocError, Global};

// The longest run from a page on that has the page's mark.
fn span_from<M: Marked>(m: &M, first: u64, mark: M::Mark) -> Span<M::Mark>
    requires checked { M.is_checked m.now }
    requires page { first < M.size m.now }
    requires marked { M.marks m.now first ≡ Some mark }
    ensures first { result.first ≡ first }
    ensures some { 0 < result.count }
    ensures bound { span_end result ≤ M.size m.now }
    ensures longest { IsLongest (M.marks m.now) (M.size m.now) result }
{
    let pages = m.pages();
    let mut end = m.next_edge(first);
    while end < pages {
        if !m.has(end, &mark) {
            break;
        }
        end = m.next_edge(end);
    }
    Span {
        first,
        count: end - first,
        mark,
    }
}

/// The longest runs of pages that have one mark, in ascending order. Fails only if an allocation fails.
pub(crate) fn spans<M: Marked>(alloc: Global, m: &M) -> Result<Vec<Span<M::Mark>>, AllocError>
    requires { M.is_checked m.now }
    ensures { IfOk result (λ spans. AreSpans (M.marks m.now) 0 (M.size m.now) spans.items) }
{
    let pages = m.pages();
    let mut list = Vec::new(alloc);
    let mut page = 0;
    while page < pages {
        let Some(mark) = m.mark_at(page) else {
            page = m.next_edge(page);
            continue;
        };
        let span = span_from(m, page, mark);
        page = span.first + span.count;
        list.push(span)?;
    }
    Ok(list)
}

/// How many pages have a mark.
pub(crate) fn marked_pages<M: Marked>(m: &M) -> u64
    requires { M.is_checked m.now }
    ensures { result ≡ marked_pages (M.marks m.now) (M.size m.now) }
{
    let pages = m.pages();
    let mut marked = 0;
    let mut page = 0;
    while page < pages {
        let end = m.next_edge(page);
        if m.mark_at(page).is_some() {
            marked += end - page;
        }
        page = end;
    }
    marked
}
