// Which format the lines of a log are of, and the one of which most lines show registers.
ghost use Rattle.std.specs.Prelude.{◌≡◌, ◌≤◌, ◌<◌, ◌+◌, ◌++◌, length};
ghost use Rattle.arrayvec.specs.ArrayVec.{array_vec_len};
ghost use Rattle.mt_import.specs.Census.{best_with, beside, census_behind, census_by, census_with, counts_first, first_best, format_at, has_register, have_register, is_taken, lines_in, lines_text, no_census, passed_by, passed_line, passed_over, place_of, shows_register, taken};

use crate::format::format_told;
use crate::pieces::count_on;
use crate::reading::is_register;
use crate::shape::{Best, Census, Shown};
use crate::text::{Outcome, format_name};
use crate::{Format, LineSays};
use arrayvec::ArrayVec;
use mt_dump::{TextBuffer, append_text};
use mt_output::{LineBuffer, append, append_decimal};
use mt_text::Line;

// The formats in the order in which lines tell them.
fn place_of(format: Format) -> usize
    ensures place { result ≡ place_of format }
    ensures within { result < 10 }
{
    match format {
        Format::Xen => 0,
        Format::Linux => 1,
        Format::Coreboot => 2,
        Format::Edk2 => 3,
        Format::Inteltool => 4,
        Format::X86info => 5,
        Format::Rdmsr => 6,
        Format::Chipsec => 7,
        Format::Windbg => 8,
        Format::Plain => 9,
    }
}

fn has_register(shown: Option<Shown>) -> bool
    ensures { result ≡ has_register shown }
{
    match shown {
        Some(shown) => is_register(shown.number as u64),
        None => false,
    }
}

fn have_register(shows: &[Option<Shown>]) -> bool
    ensures { result ≡ have_register shows.now }
{
    let Some((shown, shows)) = shows.split_first() else {
        return false;
    };
    if has_register(*shown) {
        true
    } else {
        have_register(shows)
    }
}

// Whether a line shows or calls a register that some dump has.
fn shows_register(said: &LineSays) -> bool
    ensures { result ≡ shows_register said.now }
{
    match said {
        LineSays::Announces(_, number) => is_register(*number as u64),
        LineSays::Shows(_, shows) => have_register(shows),
        LineSays::Lists(_, shown) => is_register(shown.number as u64),
        LineSays::Begins(shows) => have_register(shows),
        LineSays::FixedRanges(..) | LineSays::VariableRanges(..) => true,
        _ => false,
    }
}

// The format of a line, if the first one is this.
fn format_at(first: Option<Format>, line: &Line<'_>) -> Option<Format>
    ensures { result ≡ format_at first line.now.number line.now.bytes.now }
{
    match first {
        Some(format) if format.said_of(line).is_match() => Some(format),
        _ => format_told(line),
    }
}

fn is_taken(own: Option<Format>, format: Format) -> bool
    ensures { result ≡ is_taken own format }
{
    match own {
        Some(own) => place_of(own) == place_of(format),
        None => false,
    }
}

fn lines_text(count: u64) -> &'static [u8]
    ensures text { result.now ≡ lines_text count }
    ensures short { length result.now ≤ 10 }
{
    if count == 1 {
        b" line of "
    } else {
        b" lines of "
    }
}

// What is told of lines of this format, if it isn't taken.
fn passed_line(own: Option<Format>, format: Format, count: u64) -> LineBuffer
    ensures text { result.items ≡ passed_line own format count }
    ensures short { array_vec_len result ≤ 53 }
{
    let mut line = ArrayVec::new();
    if is_taken(own, format) || count == 0 {
        return line;
    }
    append(&mut line, b"passed over ");
    append_decimal(&mut line, count);
    append(&mut line, lines_text(count));
    append(&mut line, format_name(Some(format)));
    append(&mut line, b"\n");
    line
}

impl Census {
    /// Before all lines.
    pub(crate) fn none() -> Census
        ensures { result ≡ no_census }
    {
        Census {
            first: None,
            counts: [0; 10],
        }
    }

    // How many lines of this format show registers.
    fn lines(&self, format: Format) -> u64
        ensures { result ≡ lines_in self.now format }
    {
        self.counts[place_of(format)]
    }

    // Behind a line of this format that says this.
    fn with(self, format: Format, said: &LineSays) -> Census
        ensures { result ≡ census_with format said.now self }
    {
        let mut counts = self.counts;
        if shows_register(said) {
            counts[place_of(format)] = count_on(self.lines(format));
        }
        Census {
            first: self.first.or(Some(format)),
            counts,
        }
    }

    fn by(self, format: Option<Format>, line: &Line<'_>) -> Census
        ensures { result ≡ census_by format line.now.number line.now.bytes.now self }
    {
        match format {
            Some(format) => self.with(format, &format.said_of(line)),
            None => self,
        }
    }

    /// Behind one more line.
    #[tactic(auto, unfolding(crate::specs::Census::census_behind))]
    pub(crate) fn behind(self, line: &Line<'_>) -> Census
        ensures { result ≡ census_behind self line.now.number line.now.bytes.now }
    {
        self.by(format_at(self.first, line), line)
    }

    // How many lines of the first format count.
    fn counts_first(&self, first: Option<Format>) -> u64
        ensures { result ≡ counts_first self.now first }
    {
        match first {
            Some(format) if place_of(format) != 9 => self.lines(format),
            _ => 0,
        }
    }

    // The first format.
    fn first_best(&self) -> Best
        ensures { result ≡ first_best self.now }
    {
        Best {
            lines: self.counts_first(self.first),
            format: self.first,
        }
    }

    // The best of one format more.
    fn best(&self, best: Best, format: Format) -> Best
        ensures { result ≡ best_with format self.now best }
    {
        let lines = self.lines(format);
        if best.lines < lines {
            Best {
                lines,
                format: Some(format),
            }
        } else {
            best
        }
    }

    /// The format that is taken, if a line tells one.
    #[tactic(auto, unfolding(crate::specs::Census::taken))]
    pub(crate) fn taken(&self) -> Option<Format>
        ensures { result ≡ taken self.now }
    {
        let one = self.best(self.first_best(), Format::Xen);
        let two = self.best(one, Format::Linux);
        let three = self.best(two, Format::Coreboot);
        let four = self.best(three, Format::Edk2);
        let five = self.best(four, Format::Inteltool);
        let six = self.best(five, Format::X86info);
        let seven = self.best(six, Format::Rdmsr);
        let eight = self.best(seven, Format::Chipsec);
        self.best(eight, Format::Windbg).format
    }

    // Adds what is told of lines of this format.
    fn append_passed(&self, text: &mut TextBuffer, own: Option<Format>, format: Format)
        requires { array_vec_len text.old ≤ 512 }
        ensures text { text.new.items ≡ text.old.items ++ passed_by own self.now format }
        ensures short { array_vec_len text.new ≤ array_vec_len text.old + 53 }
    {
        append_text(
            text,
            passed_line(own, format, self.lines(format)).as_slice(),
        );
    }

    /// What is told of the lines of formats that aren't taken.
    #[tactic(auto, unfolding(crate::specs::Census::passed_over))]
    pub(crate) fn passed_over(&self) -> TextBuffer
        ensures text { result.items ≡ passed_over self.now }
        ensures short { array_vec_len result ≤ 530 }
    {
        let own = self.taken();
        let mut text = ArrayVec::new();
        self.append_passed(&mut text, own, Format::Xen);
        self.append_passed(&mut text, own, Format::Linux);
        self.append_passed(&mut text, own, Format::Coreboot);
        self.append_passed(&mut text, own, Format::Edk2);
        self.append_passed(&mut text, own, Format::Inteltool);
        self.append_passed(&mut text, own, Format::X86info);
        self.append_passed(&mut text, own, Format::Rdmsr);
        self.append_passed(&mut text, own, Format::Chipsec);
        self.append_passed(&mut text, own, Format::Windbg);
        self.append_passed(&mut text, own, Format::Plain);
        text
    }
}

/// The same with a text in front of the reasons.
pub(crate) fn beside(front: &[u8], told: Outcome) -> Outcome
    requires front { length front.now ≤ 530 }
    requires reasons { length told.reasons ≤ 0x7c00 }
    ensures { result ≡ beside front.now told }
{
    let mut reasons = ArrayVec::new();
    append_text(&mut reasons, front);
    append_text(&mut reasons, told.reasons.as_slice());
    Outcome { reasons, ..told }
}
