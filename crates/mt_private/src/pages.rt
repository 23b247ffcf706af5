// The least page that two processors name, found by a walk over all names, without memory.
ghost use Rattle.std.specs.Prelude.{◌≡◌, ◌↔◌, ◌/◌, ◌<◌, ◌≤◌, ◌==◌, ℕ, None, Some, cond, length, slice_get};
ghost use Rattle.std.specs.List.{fold, list_any};
ghost use Rattle.mt_private.specs.Pages.{IsLeastShared, IsPrivate, after_names, better, is_below, is_shared, names, naming, page_of_line};

use mt_cache::{Cache, CacheLine};
use mt_core::Core;
use mt_cpu::Cpu;
use mt_tlb::{Entry, Mapping};

/// Lines of 64 bytes in a page of 4,096.
const LINES: u64 = 64;

// What lies in a physical page.
trait InPage {
    ghost its_page: { Self → ℕ };

    fn page(&self) -> u64
        ensures { result ≡ its_page self.now };
}

impl InPage for Mapping {
    ghost its_page = { λ m. m.ppage };

    fn page(&self) -> u64 {
        self.ppage
    }
}

impl InPage for Entry {
    ghost its_page = { λ e. e.ppage };

    fn page(&self) -> u64 {
        self.ppage
    }
}

impl InPage for CacheLine {
    ghost its_page = { page_of_line };

    fn page(&self) -> u64 {
        self.number / LINES
    }
}

fn at<T>(xs: &[T], i: usize) -> &T
    requires { i < length xs.now }
    ensures { slice_get xs.now i ≡ Some result.now }
{
    &xs[i]
}

// Whether one of these lies in the page.
fn any_in<T: InPage>(xs: &[T], page: u64) -> bool
    ensures { result ≡ list_any (λ x. T.its_page x == page) xs.now }
{
    for i in 0..xs.len() {
        if at(xs, i).page() == page {
            return true;
        }
    }
    false
}

// Whether a cached line lies in the page.
fn has_cached(cache: &Cache, page: u64) -> bool
    ensures { result ≡ list_any (λ l. page_of_line l == page) cache.now }
{
    for i in 0..cache.len() {
        if cache.nth(i).page() == page {
            return true;
        }
    }
    false
}

// Whether one of the processor's mappings, TLB entries, cached lines or buffers lies in the page.
pub(crate) fn names(cpu: &Cpu, page: u64) -> bool
    ensures { result ≡ names page cpu.now }
{
    any_in(cpu.maps().list(), page)
        || any_in(cpu.tlb().entries(), page)
        || has_cached(cpu.cache(), page)
        || any_in(cpu.buffers().lines(), page)
}

fn one_if(is: bool) -> u64
    ensures value { result ≡ cond is 1 0 }
    ensures most { result ≤ 1 }
{
    if is { 1 } else { 0 }
}

// Whether two processors name the page.
fn is_shared(cpus: &[Cpu], page: u64) -> bool
    ensures { result ≡ is_shared cpus.now page }
{
    let mut count = 0u64;
    for k in 0..cpus.len() {
        count += one_if(names(at(cpus, k), page));
    }
    count > 1
}

fn is_below(page: u64, best: Option<u64>) -> bool
    ensures { result ≡ is_below page best }
{
    match best {
        Some(best) => page < best,
        None => true,
    }
}

// The lesser one, where the page is shared.
fn better(cpus: &[Cpu], best: Option<u64>, page: u64) -> Option<u64>
    ensures { result ≡ better (is_shared cpus.now) best page }
{
    if is_below(page, best) && is_shared(cpus, page) {
        Some(page)
    } else {
        best
    }
}

// The best one after the pages of these.
fn over_pages<T: InPage>(cpus: &[Cpu], best: Option<u64>, xs: &[T]) -> Option<u64>
    ensures { result ≡ fold (λ b x. better (is_shared cpus.now) b (T.its_page x)) best xs.now }
{
    let mut best = best;
    for i in 0..xs.len() {
        best = better(cpus, best, at(xs, i).page());
    }
    best
}

// The best one after those of a cache.
fn over_cached(cpus: &[Cpu], best: Option<u64>, cache: &Cache) -> Option<u64>
    ensures { result ≡ fold (λ b l. better (is_shared cpus.now) b (page_of_line l)) best cache.now }
{
    let mut best = best;
    for i in 0..cache.len() {
        best = better(cpus, best, cache.nth(i).page());
    }
    best
}

// The best one after all names of a processor.
fn over_names(cpus: &[Cpu], best: Option<u64>, cpu: &Cpu) -> Option<u64>
    ensures { result ≡ after_names (is_shared cpus.now) best cpu.now }
{
    let mapped = over_pages(cpus, best, cpu.maps().list());
    let translated = over_pages(cpus, mapped, cpu.tlb().entries());
    let cached = over_cached(cpus, translated, cpu.cache());
    over_pages(cpus, cached, cpu.buffers().lines())
}

fn over_all(cpus: &[Cpu]) -> Option<u64>
    ensures { result ≡ fold (after_names (is_shared cpus.now)) None cpus.now }
{
    let mut best = None;
    for k in 0..cpus.len() {
        best = over_names(cpus, best, at(cpus, k));
    }
    best
}

fn over_core(core: &Core) -> Option<u64>
    ensures { let ps = core.now.system.processors in result ≡ fold (after_names (is_shared ps)) None ps }
{
    over_all(core.system().cpus())
}

/// The least physical page that two processors name, as an address divided by 4,096. A processor names the pages of its
/// mappings, TLB entries, cached lines and buffers. Returns `None` if and only if no two name one page.
pub fn shared_page(core: &Core) -> Option<u64>
    ensures none { (result ≡ None) ↔ IsPrivate core.now.system }
    ensures least { (page : ℕ) → (result ≡ Some page) ↔ IsLeastShared core.now.system page }
{
    over_core(core)
}
