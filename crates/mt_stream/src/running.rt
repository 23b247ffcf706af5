ghost use Rattle.std.specs.Prelude.{◌≡◌, ◌≢◌, ◌≤◌, ◌<◌, ◌+◌, ◌↔◌, ℕ, [], length, None, Some, Ok, IfOk};
ghost use Rattle.mt_text.specs.Text.{longest_input};
ghost use Rattle.mt_text.specs.Feed.{GaveTooMuch, IsLong, TakesMore, drawn, taken};
ghost use Rattle.mt_ports.specs.Causes.{HasCause, StatusHasCause};
ghost use Rattle.mt_output.specs.Writing.{Adds};
ghost use Rattle.mt_stream.specs.Handling.{MayTake, RefusesFrom, ResultsFrom, TakesEach};
ghost use Rattle.mt_stream.specs.Laws.{AreLaws};
ghost use Rattle.mt_stream.specs.Lines.{Closes, WritesRest, Next, Path, SinkHasCause, SourceHasCause, closed_run, end_status, last_line, run_status, running};
ghost use Rattle.mt_output.specs.Ports.{change, port, read};
ghost use Rattle.mt_stream.specs.Transcript.{transcript_with};

use crate::{Cut, End, Ended, LineRun, Stop};
use mt_output::Writer;
use mt_ports::{Failed, Sink, Source, Status};
use mt_text::{Feed, FeedFault, Line};

/// The status of a run.
pub fn run_status(run: Result<Ended, Cut>) -> Status
    ensures value { result ≡ run_status run }
    ensures others { (result ≢ Status.Usage) × (result ≢ Status.TooFew) × (result ≢ Status.Disabled) }
    ensures read_fault { (before : ℕ) (now : ℕ) → SourceHasCause before now run → StatusHasCause Status.ReadFault before now result }
    ensures write_fault { (before : ℕ) (now : ℕ) → SinkHasCause before now run → StatusHasCause Status.WriteFault before now result }
{
    match run {
        Ok(Ended::Text(End::Done)) => Status::Done,
        Ok(Ended::Text(End::BadText)) => Status::BadText,
        Ok(Ended::Line(Stop::Refused)) => Status::Refused,
        Ok(Ended::Line(Stop::BadText)) => Status::BadText,
        Ok(Ended::Line(Stop::NoMemory)) => Status::NoMemory,
        Err(Cut::Feed(FeedFault::ReadFault)) => Status::ReadFault,
        Err(Cut::Feed(FeedFault::TooLong)) => Status::TooLong,
        Err(Cut::Write) => Status::WriteFault,
    }
}

// Moves on to the next line, and says whether there is one. All that waits is written before the
// source is asked.
#[inline(always)]
fn next_line<S: Source, K: Sink>(
    feed: &mut Feed,
    source: &mut S,
    writer: &mut Writer,
    sink: &mut K,
) -> Result<bool, Cut>
    requires { feed.old.fault ≡ None }
    ensures bytes { TakesMore (drawn S.left S.given source.old source.new)
        (λ more. Next (change feed.old feed.new) (read more (S.left source.new)) (change writer.old writer.new) (port K.taken sink.old sink.new) result) }
    ensures long { IsLong feed.new }
    ensures source { SourceHasCause (S.faults source.old) (S.faults source.new) result }
    ensures sink { SinkHasCause (K.faults sink.old) (K.faults sink.new) result }
{
    if feed.advance_pending() {
        return Ok(true);
    }
    let flushed = writer.flush(sink);
    if let Err(_) = flushed {
        return Err(Cut::Write);
    }
    match feed.advance(source) {
        Ok(moved) => Ok(moved),
        Err(fault) => Err(Cut::Feed(fault)),
    }
}

/// Writes a last text, and returns how the line ends the run.
pub fn tell<K: Sink>(
    writer: &mut Writer,
    sink: &mut K,
    text: &[u8],
    stop: Stop,
) -> Result<Option<Stop>, Failed>
    requires { length text.now ≤ 224 }
    ensures bytes { Adds text.now (change writer.old writer.new) (port K.taken sink.old sink.new) result }
    ensures stop { IfOk result (λ ended. ended ≡ Some stop) }
    ensures answer { (answer : Stop) → result ≡ Ok (Some answer) → answer ≡ stop }
    ensures cause { HasCause (K.faults sink.old) (K.faults sink.new) result }
{
    match writer.write(sink, text) {
        Ok(()) => Ok(Some(stop)),
        Err(failed) => Err(failed),
    }
}

/// Writes a last text with all that waits, and returns how the text ends.
pub fn close<K: Sink>(
    writer: &mut Writer,
    sink: &mut K,
    text: &[u8],
    end: End,
) -> Result<End, Failed>
    requires { length text.now ≤ 224 }
    ensures bytes { Closes (transcript_with text.now (end_status end)) writer.old (port K.taken sink.old sink.new) result }
    ensures cause { HasCause (K.faults sink.old) (K.faults sink.new) result }
{
    if let Err(failed) = writer.write(sink, text) {
        return Err(failed);
    }
    match writer.flush(sink) {
        Ok(()) => Ok(end),
        Err(failed) => Err(failed),
    }
}

// How a run ends with its text.
fn closed(closed: Result<End, Failed>) -> Result<Ended, Cut>
    ensures { result ≡ closed_run closed }
{
    match closed {
        Ok(end) => Ok(Ended::Text(end)),
        Err(_) => Err(Cut::Write),
    }
}

// Ends a run as a line does: writes all that waits, and drops what is left of the source, unless
// that line was the last or memory was refused.
fn leave<S: Source, K: Sink>(
    stop: Stop,
    last: bool,
    feed: &mut Feed,
    source: &mut S,
    writer: &mut Writer,
    sink: &mut K,
) -> Result<Ended, Cut>
    requires { feed.old.fault ≡ None }
    ensures bytes { TakesMore (drawn S.left S.given source.old source.new)
        (λ more. (taken feed.new ≡ taken feed.old + length more)
        × WritesRest (last_line stop last) (read more (S.left source.new)) writer.old (port K.taken sink.old sink.new) (run_status result)) }
    ensures long { (run_status result ≡ Status.TooLong) ↔ (longest_input < taken feed.new) }
    ensures source { SourceHasCause (S.faults source.old) (S.faults source.new) result }
    ensures sink { SinkHasCause (K.faults sink.old) (K.faults sink.new) result }
{
    feed.fault(); // a fact for the proof
    if let Err(_) = writer.flush(sink) {
        return Err(Cut::Write);
    }
    if last || stop == Stop::NoMemory {
        return Ok(Ended::Line(stop));
    }
    match feed.drain(source) {
        Ok(()) => Ok(Ended::Line(stop)),
        Err(fault) => Err(Cut::Feed(fault)),
    }
}

/// Runs the lines of a source to their end, to a line that ends the run, or to a fault. Each line is
/// taken by `take_line`.
pub fn run_lines<L, S, K, F>(
    take_line: F,
    run: &mut L,
    source: &mut S,
    writer: &mut Writer,
    sink: &mut K,
) -> Result<Ended, Cut>
where
    L: LineRun,
    S: Source,
    K: Sink,
    F: Fn(&mut L, &Line<'_>, &mut Writer, &mut K) -> Result<Option<Stop>, Failed>,
    requires waiting { writer.old ≡ [] }
    requires ready { L.ready 0 run.old }
    requires laws { AreLaws (running L.at L.ends L.asks L.ready) }
    requires may { MayTake (running L.at L.ends L.asks L.ready) (F.pre take_line) }
    requires takes { TakesEach (running L.at L.ends L.asks L.ready) K.taken K.faults (F.post take_line) }
    ensures bytes { (start : Path) → L.at run.old [] start
        → ResultsFrom start (port S.left source.old source.new) (port K.taken sink.old sink.new) (run_status result) }
    ensures memory { (start : Path) → L.at run.old [] start → run_status result ≡ Status.NoMemory
        → RefusesFrom start (L.asks run.old) (port S.left source.old source.new) (port K.taken sink.old sink.new) }
    ensures source { SourceHasCause (S.faults source.old) (S.faults source.new) result }
    ensures sink { SinkHasCause (K.faults sink.old) (K.faults sink.new) result }
    ensures too_long { (run_status result ≡ Status.TooLong) ↔ GaveTooMuch (S.given source.old) (S.given source.new) }
{
    let mut feed = Feed::new();
    'lines: loop {
        match next_line(&mut feed, source, writer, sink) {
            Ok(true) => {}
            Ok(false) => return closed(run.write_end(feed.end(), writer, sink)),
            Err(cut) => return Err(cut),
        }
        let last = feed.is_last();
        match take_line(run, &feed.current(), writer, sink) {
            Ok(None) => {
                if last {
                    return closed(run.write_end(feed.end(), writer, sink));
                }
            }
            Ok(Some(stop)) => return leave(stop, last, &mut feed, source, writer, sink),
            Err(_) => return Err(Cut::Write),
        }
    }
}
