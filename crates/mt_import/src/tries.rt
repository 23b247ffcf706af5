ghost use Rattle.std.specs.Prelude.{◌≡◌, ◌≤◌, ℕ, Bool, Result, [], length, IfSome, IfErr, IfOk, MatchResult, is_some};
ghost use Rattle.mt_text.specs.Reader.{Course};
ghost use Rattle.mt_text.specs.Text.{past_limit};
ghost use Rattle.mt_text.specs.declared.place.Place.{Place};
ghost use Rattle.mt_import.specs.Import.{IsWritten, closed, dump_text};
ghost use Rattle.mt_import.specs.LogTables.{kept, way_behind};
ghost use Rattle.mt_import.specs.Outcome.{Outcome as Texts, Seen, nothing_seen};
ghost use Rattle.mt_import.specs.Reader.{HasTakenFacts, IsShort};
ghost use Rattle.mt_import.specs.Readings.{starts};
ghost use Rattle.mt_import.specs.Supplied.{Supplied as Words};
ghost use Rattle.mt_import.specs.Tries.{Begins, HasTried, IsShortFailure, LeadsOn, LeadsTo, TakesInTables, TakesTold, current_behind, failure_or, fault_in};
ghost use Rattle.mt_import.specs.declared.fault.ImportFault.TheVariants.{BadLine};
ghost use Rattle.mt_import.specs.declared.fault.Reason.TheVariants.{LongLine};
ghost use Rattle.mt_import.specs.declared.shape.Failure.{Failure};

use crate::dumping::refusal;
use crate::log_tables::{begins_table, missing_table, told_by};
use crate::shape::{Failure, Pick, Tables, Told, Way};
use crate::text::Outcome;
use crate::{Format, ImportFault, LineSays, LogReader, Reason, Stop, Supplied};
use mt_text::Line;
use std::marker::Model;

/// A reader, and the fault of the first line that had one. Behind it no line is taken.
#[derive(Drop)]
pub struct Try {
    reader: LogReader,
    fault: Option<ImportFault>,
}

impl Model for Try {
    ghost use Rattle.std.specs.Prelude.{IfSome};
    ghost use Rattle.mt_import.specs.Reader.{IsShort};
    ghost use Rattle.mt_import.specs.Tries.{Tried};

    ghost Value = { Tried };

    ghost view = { λ t. record { state = t.reader; fault = t.fault } };

    ghost invariant = { λ t. IfSome t.fault IsShort };
}

// What is taken of a line. A line of a table that isn't read says nothing.
fn kept(is_read: bool, told: &Told) -> LineSays
    ensures { result ≡ kept is_read told.now }
{
    if told.is_part && !is_read {
        LineSays::Nothing
    } else {
        told.said
    }
}

fn fault_in(taken: Result<(), ImportFault>) -> Option<ImportFault>
    ensures fault { result ≡ fault_in taken }
    ensures short { IfErr taken IsShort → IfSome result IsShort }
{
    match taken {
        Ok(()) => None,
        Err(fault) => Some(fault),
    }
}

impl Try {
    fn new(format: Option<Format>) -> Try
        ensures { (supplied : Words) → HasTried supplied (nothing_seen format) [] (starts format) result }
    {
        Try {
            reader: LogReader::new(format),
            fault: None,
        }
    }

    fn copy(&self) -> Try
        ensures { result ≡ self.now }
    {
        Try {
            reader: self.reader.copy(),
            fault: self.fault,
        }
    }

    // Whether a line had a fault.
    fn is_done(&self) -> bool
        ensures { result ≡ is_some self.now.fault }
    {
        self.fault.is_some()
    }

    /// The fault, if a line had one.
    pub(crate) fn fault(&self) -> Option<ImportFault>
        ensures value { result ≡ self.now.fault }
        ensures short { IfSome result IsShort }
    {
        self.fault
    }

    /// The reader behind all lines, if none had a fault.
    pub(crate) fn reader(&self) -> &LogReader
        ensures { result.now ≡ self.now.state }
    {
        &self.reader
    }

    // Begins a table, if the line is its heading. Another reader has read the lines outside of tables.
    fn begin(&mut self, pick: Pick, told: &Told, outside: &Try)
        ensures { self.new ≡ current_behind pick told.now outside.now self.old }
    {
        if begins_table(told) && matches!(pick, Pick::Last) {
            *self = outside.copy();
        }
    }

    // Takes a line, whose table may be one that is read.
    fn take(&mut self, supplied: &Supplied, told: &Told, is_read: bool)
        ensures { TakesTold supplied.now told.now is_read self.old self.new }
    {
        if self.is_done() {
            return;
        }
        let taken = self.reader.take(supplied, told, &kept(is_read, told));
        self.fault = fault_in(taken);
    }
}

/// What the lines of a log have shown so far, of the tables that are read and of none.
#[derive(Drop)]
pub struct Tries {
    // The lines outside of tables and those of the tables that are read: of the last one, the last that has begun.
    current: Try,
    // The lines outside of tables.
    outside: Try,
    way: Way,
}

impl Model for Tries {
    ghost use Rattle.mt_import.specs.Tries.{TriesSeen};

    ghost Value = { TriesSeen };

    ghost view = { λ t. record { current = t.current; outside = t.outside; way = t.way } };
}

impl Tries {
    /// Of no line, where the format may be known.
    pub(crate) fn new(format: Option<Format>) -> Tries
        ensures { Begins format result }
    {
        Tries {
            current: Try::new(format),
            outside: Try::new(format),
            way: Way {
                format,
                tables: Tables::none(),
            },
        }
    }

    // What is known behind the lines, whichever tables are read.
    fn way(&self) -> Way
        ensures { result ≡ self.now.way }
    {
        self.way
    }

    // What is shown by the tables that are read.
    fn current(&self) -> &Try
        ensures { result.now ≡ self.now.current }
    {
        &self.current
    }

    // Takes a line.
    fn take(&mut self, pick: Pick, supplied: &Supplied, told: &Told)
        ensures way { self.new.way ≡ way_behind self.old.way told.now }
        ensures tried { TakesInTables pick supplied.now told.now self.old self.new }
    {
        let way = self.way.behind(told);
        self.current.begin(pick, told, &self.outside);
        self.way = way;
        let is_read = pick.reads(&way.tables);
        self.current.take(supplied, told, is_read);
        self.outside.take(supplied, told, false);
    }

    /// Takes a line that isn't too long.
    pub(crate) fn take_line(&mut self, supplied: &Supplied, line: &Line<'_>)
        requires { length line.now.bytes.now ≤ 4096 }
        ensures { LeadsOn supplied.now line.now.bytes.now line.now.number self.old self.new }
    {
        let told = told_by(self.way().format, line);
        self.take(supplied.table(), supplied, &told);
    }

    // The fault that the lines had, or else this one.
    fn failure_or(&self, fault: ImportFault) -> Failure
        requires { IsShort fault }
        ensures value { result ≡ failure_or self.now fault }
        ensures short { IsShort result.stop.fault }
    {
        let current = self.current();
        Failure {
            stop: Stop {
                fault: current.fault().unwrap_or(fault),
                warned: current.reader().tally().warned,
            },
            tables: self.way().tables,
        }
    }

    /// What a line that is too long comes to.
    pub(crate) fn long_line(&self, line: &Line<'_>) -> Failure
        ensures value { result ≡ failure_or self.now (BadLine LongLine (past_limit line.now.number)) }
        ensures short { IsShort result.stop.fault }
    {
        self.failure_or(ImportFault::BadLine(Reason::LongLine, line.past_limit()))
    }

    // The dump of the tables that are read, or what is missing.
    fn closed(&self, is_auto: bool, supplied: &Supplied) -> Outcome
        ensures told { (seen : Seen) → HasTakenFacts self.now.current.state seen → result ≡ closed is_auto supplied.now self.now.way.tables seen }
        ensures written { IsWritten result.status (dump_text result) }
        ensures room { length result.reasons ≤ 0x7c00 }
    {
        let pick = supplied.table();
        let tables = self.way().tables;
        let reader = self.current().reader();
        if tables.have(pick) {
            reader.finish(is_auto, supplied)
        } else {
            refusal(&reader.tally(), missing_table(pick, &tables).as_slice())
        }
    }

    /// What all lines come to.
    pub(crate) fn answer(&self, is_auto: bool, supplied: &Supplied) -> Result<Outcome, Failure>
        ensures value { (number : ℕ) (course : Course (Result Texts Failure)) (end : Place) → LeadsTo is_auto supplied.now self.now number course → result ≡ course [] end }
        ensures fits { MatchResult result (λ told. IsWritten told.status (dump_text told)) IsShortFailure }
        ensures room { IfOk result (λ told. length told.reasons ≤ 0x7c00) }
    {
        match self.current().fault() {
            Some(fault) => Err(self.failure_or(fault)),
            None => Ok(self.closed(is_auto, supplied)),
        }
    }
}
