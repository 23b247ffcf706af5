ghost use Rattle.mt_ram.specs.Windows.{OverlapsByBytes};

/// Two windows that have a line each overlap exactly where some byte is in both.
pub fn windows_overlap_by_bytes()
    ensures { OverlapsByBytes }
{}
