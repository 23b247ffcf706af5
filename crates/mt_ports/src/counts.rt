ghost use Rattle.std.specs.Prelude.{◌≡◌};
ghost use Rattle.mt_ports.specs.Causes.{one_more};

// A count of faults after one more.
pub(crate) fn one_more(count: u64) -> u64
    ensures { result ≡ one_more count }
{
    count.saturating_add(1)
}
