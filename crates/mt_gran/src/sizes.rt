ghost use Rattle.std.specs.Prelude.{◌≡◌, ◌≤◌, ◌+◌, ◌^◌, ℕ, IfNone, IfSome};
ghost use Rattle.mt_gran.specs.Sizes.{IsGranuleSize, log_among};

const GRANULE_SIZES: u8 = 29;

// The bytes of a granule.
fn granule_bytes(log: u8) -> u64
    requires { log ≤ 28 }
    ensures { result ≡ 2 ^ (12 + log) }
{
    1 << (12 + log)
}

// The first log whose granules have so many bytes.
fn log_among(size: u64) -> Option<u8>
    ensures { result ≡ log_among size 0 29 }
{
    for log in 0..GRANULE_SIZES {
        if size == granule_bytes(log) {
            return Some(log);
        }
    }
    None
}

/// The log of the pages of a granule of `size` bytes, or `None` where that isn't a power of two from 4 KB to 1 TB.
pub fn granule_log(size: u64) -> Option<u8>
    ensures value { result ≡ log_among size 0 29 }
    ensures some { IfSome result (λ log. IsGranuleSize size log) }
    ensures none { IfNone result ((log : ℕ) → ¬ IsGranuleSize size log) }
{
    log_among(size)
}
