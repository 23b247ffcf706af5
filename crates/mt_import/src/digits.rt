ghost use Rattle.mt_import.specs.Digits.{HaveDigits};
ghost use Rattle.mt_import.specs.Tables.{rows_in};

use crate::chipsec::CHIPSEC;
use crate::inteltool::INTELTOOL;
use crate::plain::PLAIN;
use crate::windbg::WINDBG;
use crate::x86info::X86INFO;

/// Each row has the digits that its meaning wants: those of a value are so many, and a value with fewer was cut.
pub fn rows_have_their_digits()
    ensures inteltool { HaveDigits (rows_in INTELTOOL) }
    ensures x86info { HaveDigits (rows_in X86INFO) }
    ensures chipsec { HaveDigits (rows_in CHIPSEC) }
    ensures windbg { HaveDigits (rows_in WINDBG) }
    ensures plain { HaveDigits (rows_in PLAIN) }
{}
