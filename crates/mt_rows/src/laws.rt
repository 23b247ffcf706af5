ghost use Rattle.mt_rows.specs.Laws.{CutIsNotRead, OneRow, PrintedIsRead};

/// What a row prints of texts that fit, it reads with the numbers of these texts.
pub fn what_is_printed_is_read()
    ensures { PrintedIsRead }
{}

/// A line that is cut within its last text isn't read.
pub fn what_is_cut_is_not_read()
    ensures { CutIsNotRead }
{}

/// A line that a row reads isn't read by a row that is apart from it.
pub fn a_line_is_of_one_row()
    ensures { OneRow }
{}
