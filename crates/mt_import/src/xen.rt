ghost use Rattle.std.specs.Prelude.{◌≡◌};
ghost use Rattle.mt_import.specs.Xen.{xen_said};

use crate::LineSays;
use crate::kernel::kernel_said;
use crate::line_words::{LineWords, behind_stamp};
use crate::pieces::word_is;
use mt_text::Line;

/// What a line says.
pub(crate) fn xen_said(line: &Line<'_>) -> LineSays
    ensures { result ≡ xen_said line.now.number line.now.bytes.now }
{
    if !word_is(line, 0, b"(XEN)") {
        return LineSays::Nothing;
    }
    kernel_said(true, &LineWords::behind(behind_stamp(1, line), line))
}
