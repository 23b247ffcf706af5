// Worked windows: bytes of windows, and windows that overlap.
ghost use Rattle.std.specs.Prelude.{ℕ};
ghost use Rattle.mt_ram.specs.Windows.{HasByte, OverlapsByBytes, window};

/// The last byte of a window, the addresses beside the window, and the law at two windows that overlap.
pub fn worked_bytes()
    ensures last { HasByte (window 0x1000 2) 0x107f }
    ensures below { HasByte (window 0x1000 2) 0xfff → ⊥ }
    ensures above { HasByte (window 0x1000 2) 0x1080 → ⊥ }
    ensures overlap { OverlapsByBytes → (address : ℕ) × HasByte (window 0x1000 2) address × HasByte (window 0x1040 2) address }
{}
