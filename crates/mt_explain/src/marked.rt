ghost use Rattle.std.specs.Prelude.{◌≡◌, ◌↔◌, ◌<◌, ◌≤◌, ℕ, Option, Some, IsTrue};

/// Pages that may have a mark: what a walk over them asks.
pub(crate) trait Marked {
    type Mark: Drop;

    ghost size: { Self → ℕ };

    ghost marks: { Self → ℕ → Option Self.Mark };

    ghost is_checked: { Self → Type 0 };

    /// The number of pages.
    fn pages(&self) -> u64
        ensures { result ≡ size self.now };

    /// The mark of a page.
    fn mark_at(&self, page: u64) -> Option<Self::Mark>
        requires { is_checked self.now }
        ensures { result ≡ marks self.now page };

    /// Whether a page has this mark.
    fn has(&self, page: u64, mark: &Self::Mark) -> bool
        requires { is_checked self.now }
        ensures { IsTrue result ↔ (marks self.now page ≡ Some mark.now) };

    /// The next page at which the mark may change, or the number of pages.
    fn next_edge(&self, page: u64) -> u64
        requires checked { is_checked self.now }
        requires page { page < size self.now }
        ensures above { page < result }
        ensures bound { result ≤ size self.now }
        ensures same { (other : ℕ) → page ≤ other → other < result → marks self.now other ≡ marks self.now page };
}
