ghost use Rattle.std.specs.Prelude.{◌≤◌, IfOk};

use crate::case::{Ask, Input, Part, Reason, Trouble};
use crate::listing::{BARRIERS, instruction, step_of};
use crate::turns::turn_of;
use crate::words::{bad, count, is, is_end, shape};
use mt_dump::{Dump, DumpReader};
use mt_kinds::{LINE_BYTES, MOST_LINES, PAGE_BYTES};
use mt_list_machine::{Cpu, copied, map};
use mt_machine::Ruled;
use mt_ports::NoMemory;
use mt_procedure::{
    Case, ListPlace, Mode, PAGE_LINES, Procedure, ProcedureStep, State, Turn, aside,
};
use mt_ram::{Ram, RamFault};
use mt_regs::{RegFile, first_refusal};
use mt_script::{ScriptReason, aligned_at, any, base_at, take_dump_line, value_at, virtual_at};
use mt_text::{Line, Lines, Place, Word, Words, end_place, hex64, without_ending};
use mt_tlb::Mapping;
use std::alloc::Global;

/// At most so many processors.
const MOST_CPUS: u64 = 4;

/// At most so many states are found.
const MOST_STATES: u64 = 1 << 21;

/// What the lines that come belong to.
#[derive(Drop)]
enum Section {
    Outside,
    Goal {
        given: Vec<u32>,
    },
    List {
        cpus: Vec<usize>,
        steps: Vec<ProcedureStep>,
    },
}

/// Reads the lines behind the dump.
#[derive(Drop)]
pub(crate) struct Reader {
    alloc: Global,
    case: Case,
    start: State,
    has_goal: bool,
    ask: Option<Ask>,
    section: Section,
}

fn push<T: Drop>(list: &mut Vec<T>, item: T) -> Result<(), Trouble> {
    match list.push(item) {
        Ok(()) => Ok(()),
        Err(_) => Err(Trouble::NoMemory),
    }
}

impl Reader {
    // A reader without processors.
    fn empty(alloc: Global, goal: RegFile) -> Reader {
        Reader {
            alloc,
            case: Case {
                mode: Mode {
                    speculates: false,
                    leaks: false,
                    strict: false,
                },
                layout: Ram::new(alloc),
                starts: Vec::new(alloc),
                goal,
                lists: Vec::new(alloc),
            },
            start: State::empty(alloc),
            has_goal: false,
            ask: None,
            section: Section::Outside,
        }
    }

    fn new(alloc: Global, dump: &Dump, cpus: u32) -> Result<Reader, Trouble>
        requires { cpus ≤ 16 }
    {
        let mut reader = Reader::empty(alloc, dump.first_file().same());
        for file in dump.files_for(cpus).as_slice() {
            reader.add_cpu(file)?;
        }
        for _ in 0..BARRIERS {
            push(&mut reader.start.arrived, 0)?;
        }
        Ok(reader)
    }

    // Adds a processor with these registers.
    fn add_cpu(&mut self, file: &RegFile) -> Result<(), Trouble> {
        push(&mut self.start.cpus, Cpu::new(self.alloc, file.same()))?;
        push(&mut self.case.starts, file.same())?;
        push(&mut self.start.places, ListPlace { step: 0, part: 0 })?;
        let list = Procedure {
            steps: Vec::new(self.alloc),
        };
        push(&mut self.case.lists, list)
    }

    fn cpus(&self) -> u64 {
        self.start.cpus.len() as u64
    }

    // The processor whose number is a word.
    fn cpu(&self, words: &Words<'_>, i: usize) -> Result<usize, Trouble> {
        Ok(count(words, i, 0, self.cpus().saturating_sub(1))? as usize)
    }

    fn ram(&mut self, words: &Words<'_>) -> Result<(), Trouble> {
        shape(words, 3)?;
        let end = PAGE_BYTES * self.case.goal.pages();
        let base = base_at(words, 1)?;
        let lines = count(words, 2, 1, MOST_LINES)?;
        if base >= end || LINE_BYTES * lines > end - base {
            return bad(words.place(2), ScriptReason::OutOfRange);
        }
        match self.case.layout.add(base, lines as u32) {
            Ok(()) => {}
            Err(RamFault::NoMemory) => return Err(Trouble::NoMemory),
            Err(_) => return bad(words.place(2), ScriptReason::OutOfRange),
        }
        match self.start.words.resize(self.case.layout.words(), 0) {
            Ok(()) => Ok(()),
            Err(_) => Err(Trouble::NoMemory),
        }
    }

    fn map(&mut self, words: &Words<'_>) -> Result<(), Trouble> {
        let global = words.count() == 6 && is(words.text(5), "global");
        if !global {
            shape(words, 5)?;
        }
        let k = self.cpu(words, 1)?;
        let va = virtual_at(words, 2, PAGE_BYTES)?;
        let pa = aligned_at(words, 3, PAGE_BYTES, PAGE_BYTES * self.case.goal.pages())?;
        let index = count(words, 4, 0, 7)? as u8;
        let mapping = Mapping {
            vpage: va / PAGE_BYTES,
            ppage: pa / PAGE_BYTES,
            index,
            global,
        };
        match self.start.cpus.get_mut(k) {
            Some(cpu) => match map(cpu, mapping)? {
                Ruled::Okay => Ok(()),
                Ruled::Full | Ruled::Busy => bad(words.place(2), ScriptReason::OutOfRange),
            },
            None => bad(words.place(1), ScriptReason::OutOfRange),
        }
    }

    // An access or a control instruction before the procedures begin.
    fn before(&mut self, words: &Words<'_>) -> Result<(), Trouble> {
        let step = instruction(words, Some(self.cpus()))?;
        let k = self.cpu(words, 1)?;
        if k >= self.start.cpus.len() {
            return bad(words.place(1), ScriptReason::OutOfRange);
        }
        let mut bus = self.start.take_bus(&self.case);
        let done = aside(&mut bus, k, step);
        self.start.put_bus(bus);
        done?;
        Ok(())
    }

    fn self_snoop(&mut self, words: &Words<'_>) -> Result<(), Trouble> {
        shape(words, 2)?;
        let k = self.cpu(words, 1)?;
        if let Some(cpu) = self.start.cpus.get_mut(k) {
            cpu.self_snoop = true;
        }
        Ok(())
    }

    fn begin_goal(&mut self, words: &Words<'_>) -> Result<(), Trouble> {
        shape(words, 1)?;
        if self.has_goal {
            return bad(words.place(0), ScriptReason::Repeated);
        }
        self.has_goal = true;
        self.section = Section::Goal {
            given: Vec::new(self.alloc),
        };
        Ok(())
    }

    fn begin_list(&mut self, words: &Words<'_>) -> Result<(), Trouble> {
        if words.count() < 2 {
            return bad(words.place(0), ScriptReason::BadLine);
        }
        let mut cpus = Vec::new(self.alloc);
        for i in 1..words.count() {
            let k = self.cpu(words, i)?;
            push(&mut cpus, k)?;
        }
        self.section = Section::List {
            cpus,
            steps: Vec::new(self.alloc),
        };
        Ok(())
    }

    // Processors translate and fetch by themselves.
    fn speculate(&mut self, words: &Words<'_>) -> Result<(), Trouble> {
        shape(words, 1)?;
        if self.case.mode.speculates {
            return bad(words.place(0), ScriptReason::Repeated);
        }
        self.case.mode.speculates = true;
        Ok(())
    }

    // They fetch in no-fill mode too.
    fn leaking(&mut self, words: &Words<'_>) -> Result<(), Trouble> {
        shape(words, 1)?;
        if !self.case.mode.speculates {
            return bad(words.place(0), ScriptReason::BadLine);
        }
        if self.case.mode.leaks {
            return bad(words.place(0), ScriptReason::Repeated);
        }
        self.case.mode.leaks = true;
        Ok(())
    }

    // The strict senses of wrong count too.
    fn strict(&mut self, words: &Words<'_>) -> Result<(), Trouble> {
        shape(words, 1)?;
        if self.case.mode.strict {
            return bad(words.place(0), ScriptReason::Repeated);
        }
        self.case.mode.strict = true;
        Ok(())
    }

    // Whether a processor maps a page.
    fn maps(&self, k: usize, page: u64) -> bool {
        match self.start.cpus.get(k) {
            Some(cpu) => cpu.mapping_of(page).is_some(),
            None => false,
        }
    }

    // The turn that a word names. A speculation is one of a page that is mapped, since mappings stay as they are.
    fn turn(&self, word: &Word<'_>) -> Result<Turn, Trouble> {
        let turn = turn_of(word, self.cpus(), self.case.mode.speculates)?;
        let may_be = match turn {
            Turn::Step(_) => true,
            Turn::Translate(k, page) => self.maps(k, page),
            Turn::Fetch(k, line) => self.maps(k, line / PAGE_LINES),
        };
        if may_be {
            Ok(turn)
        } else {
            bad(word.place, ScriptReason::OutOfRange)
        }
    }

    fn run(&mut self, line: &Line<'_>) -> Result<(), Trouble> {
        let mut order = Vec::new(self.alloc);
        for i in 1..line.words() {
            let Some(word) = line.word(i) else {
                break;
            };
            let next = if is(word.text, "turns") {
                Part::Turns
            } else {
                Part::Turn(self.turn(&word)?)
            };
            push(&mut order, next)?;
        }
        self.ask = Some(Ask::Run(order));
        Ok(())
    }

    fn all(&mut self, words: &Words<'_>) -> Result<(), Trouble> {
        shape(words, 2)?;
        self.ask = Some(Ask::All(count(words, 1, 1, MOST_STATES)? as u32));
        Ok(())
    }

    // A line outside the sections.
    fn outside(&mut self, line: &Line<'_>, words: &Words<'_>) -> Result<(), Trouble> {
        let word = words.text(0);
        if self.ask.is_some() {
            bad(words.place(0), ScriptReason::NotNow)
        } else if is(word, "ram") {
            self.ram(words)
        } else if is(word, "selfsnoop") {
            self.self_snoop(words)
        } else if is(word, "map") {
            self.map(words)
        } else if is(word, "speculate") {
            self.speculate(words)
        } else if is(word, "leaking") {
            self.leaking(words)
        } else if is(word, "strict") {
            self.strict(words)
        } else if is(word, "goal") {
            self.begin_goal(words)
        } else if is(word, "procedure") {
            self.begin_list(words)
        } else if is(word, "run") {
            self.run(line)
        } else if is(word, "all") {
            self.all(words)
        } else {
            self.before(words)
        }
    }

    // A line of the goal.
    fn register(&mut self, words: &Words<'_>) -> Result<(), Trouble> {
        shape(words, 2)?;
        let number = register_number(words)?;
        let v = value_at(words, 1)?;
        if number > u32::MAX as u64 || self.case.goal.set(number as u32, v).is_err() {
            return bad(words.place(0), ScriptReason::UnknownRegister);
        }
        if let Section::Goal { given } = &mut self.section {
            if given.as_slice().contains(&(number as u32)) {
                return bad(words.place(0), ScriptReason::Repeated);
            }
            push(given, number as u32)?;
        }
        Ok(())
    }

    fn end_goal(&mut self, place: Place) -> Result<(), Trouble> {
        self.section = Section::Outside;
        match self.case.goal.first_fault() {
            Some(_) => Err(refused(place)),
            None => Ok(()),
        }
    }

    fn step(&mut self, words: &Words<'_>) -> Result<(), Trouble> {
        let step = step_of(words)?;
        if let Section::List { steps, .. } = &mut self.section {
            push(steps, step)?;
        }
        Ok(())
    }

    fn end_list(&mut self) -> Result<(), Trouble> {
        if let Section::List { cpus, steps } = &self.section {
            for k in cpus.as_slice() {
                if let Some(list) = self.case.lists.get_mut(*k) {
                    list.steps = copied(self.alloc, steps.as_slice())?;
                }
            }
        }
        self.section = Section::Outside;
        Ok(())
    }

    fn line(&mut self, line: &Line<'_>) -> Result<(), Trouble> {
        if line.too_long() {
            return bad(line.past_limit(), ScriptReason::BadLine);
        }
        let words = line.first_words();
        if words.count() == 0 {
            return Ok(());
        }
        match (&self.section, is_end(line)) {
            (Section::Outside, _) => self.outside(line, &words),
            (Section::Goal { .. }, false) => self.register(&words),
            (Section::Goal { .. }, true) => self.end_goal(words.place(0)),
            (Section::List { .. }, false) => self.step(&words),
            (Section::List { .. }, true) => self.end_list(),
        }
    }

    fn lines(&mut self, lines: &mut Lines<'_>) -> Result<(), Trouble> {
        while let Some(line) = lines.next_line() {
            self.line(&line)?;
        }
        Ok(())
    }

    fn input(self, end: Place) -> Result<Input, Trouble> {
        let Reader {
            case,
            start,
            ask,
            section,
            ..
        } = self;
        match (section, ask) {
            (Section::Outside, Some(ask)) => Ok(Input { case, start, ask }),
            _ => bad(end, ScriptReason::NoEnd),
        }
    }
}

// The register's number that begins a line, with or without a colon behind it.
fn register_number(words: &Words<'_>) -> Result<u64, Trouble> {
    Ok(any(words.place(0), hex64(without_ending(words.text(0), b':')))?)
}

// The next line with words. A text has none behind its end.
fn next_worded<'a>(lines: &mut Lines<'a>, end: Place) -> Result<Line<'a>, Trouble> {
    while let Some(line) = lines.next_line() {
        if line.too_long() {
            return bad(line.past_limit(), ScriptReason::BadLine);
        }
        if line.words() > 0 {
            return Ok(line);
        }
    }
    bad(end, ScriptReason::NoEnd)
}

fn refused(place: Place) -> Trouble {
    Trouble::Bad {
        place,
        reason: Reason::Refused,
    }
}

// The next lines' dump of so many processors, each accepted.
fn dump_of(lines: &mut Lines<'_>, cpus: u32, end: Place) -> Result<Dump, Trouble> {
    let mut dump = DumpReader::new();
    while let Some(line) = lines.next_line() {
        if let Some(shown) = take_dump_line(&mut dump, cpus, &line)? {
            return match first_refusal(shown.files.as_slice()) {
                Some(_) => Err(refused(line.first_words().place(0))),
                None => Ok(shown),
            };
        }
    }
    bad(end, ScriptReason::NoEnd)
}

// The number of processors, by the first line.
fn cpus_of(line: &Line<'_>) -> Result<u32, Trouble>
    ensures { IfOk result (λ n. n ≤ 4) }
{
    let words = line.first_words();
    if !is(words.text(0), "cpus") {
        return bad(words.place(0), ScriptReason::BadLine);
    }
    shape(&words, 2)?;
    Ok(count(&words, 1, 1, MOST_CPUS)? as u32)
}

// Whether a line begins the dump.
fn begins_dump(line: &Line<'_>) -> Result<(), Trouble> {
    let words = line.first_words();
    if !is(words.text(0), "dump") {
        return bad(words.place(0), ScriptReason::BadLine);
    }
    shape(&words, 1)
}

/// The case that a text gives.
pub fn read_input(alloc: Global, source: &[u8]) -> Result<Input, Trouble> {
    let end = end_place(source);
    let mut lines = Lines::of(source);
    let cpus = cpus_of(&next_worded(&mut lines, end)?)?;
    begins_dump(&next_worded(&mut lines, end)?)?;
    let dump = dump_of(&mut lines, cpus, end)?;
    let mut reader = Reader::new(alloc, &dump, cpus)?;
    reader.lines(&mut lines)?;
    reader.input(end)
}
