ghost use Rattle.std.specs.Prelude.{◌≡◌, ◌≢◌, ◌≤◌, ◌<◌, ◌∷◌, ◌++◌, [], true, length, Some, None, MatchOption};
ghost use Rattle.mt_dump.specs.ForProcessors.{has_each};
ghost use Rattle.mt_script.specs.Situation.{at_start, file_of};
ghost use Rattle.mt_script.specs.Stages.{is_in_dump};
ghost use Rattle.mt_script.specs.Kept.{IsSituation};
ghost use Rattle.mt_script.specs.Accept.{Fits, in_section_of, accepted, finished};

use crate::{Command, Section, Stage};
use arrayvec::ArrayVec;
use mt_dump::Dump;
use mt_regs::RegFile;
use std::marker::Model;

/// What the lines of a script so far have set up.
#[derive(Drop)]
pub struct Setup {
    stage: Stage,
    cpus: u32,
    dump: Option<Dump>,
    windows: ArrayVec<(u64, u32), 16>,
    seen: ArrayVec<u32, 77>,
    moving: bool,
}

impl Model for Setup {
    ghost use Rattle.mt_script.specs.Situation.{Situation};

    ghost Value = { Situation };

    ghost use Rattle.mt_script.specs.Seen.{situation_of, IsSituationInside};

    ghost view = { situation_of };

    ghost invariant = { IsSituationInside };
}

impl Setup {
    /// What stands before the first line.
    pub fn new() -> Setup
        ensures { result ≡ at_start }
    {
        Setup {
            stage: Stage::NeedCpus,
            cpus: 0,
            dump: None,
            windows: ArrayVec::new(),
            seen: ArrayVec::new(),
            moving: false,
        }
    }

    /// Which lines may stand next.
    pub fn stage(&self) -> Stage
        ensures { result ≡ self.now.stage }
    {
        self.stage
    }

    /// How many processors there are at the start, 0 before the `cpus` line.
    pub fn cpus(&self) -> u32
        ensures { result ≡ self.now.cpus }
    {
        self.cpus
    }

    /// The dump. There is none before its end.
    pub fn dump(&self) -> Option<&Dump>
        ensures { MatchOption result (self.now.dump ≡ None) (λ dump. self.now.dump ≡ Some dump.now) }
    {
        self.dump.as_ref()
    }

    /// Processor 0's file. There is none before the dump's end.
    pub fn file(&self) -> Option<&RegFile>
        ensures { MatchOption result (file_of self.now ≡ None) (λ file. file_of self.now ≡ Some file.now) }
    {
        match &self.dump {
            Some(dump) => Some(dump.first_file()),
            None => None,
        }
    }

    /// Base and lines of each window, in the order of their lines.
    pub fn windows(&self) -> &[(u64, u32)]
        ensures windows { result.now ≡ self.now.windows }
        ensures few { length result.now ≤ 16 }
    {
        self.windows.as_slice()
    }

    /// The registers that the present section has given.
    pub fn seen(&self) -> &[u32]
        ensures { result.now ≡ self.now.seen }
    {
        self.seen.as_slice()
    }

    /// Whether an `up`, `join` or `retire` line was accepted before.
    pub fn moving(&self) -> bool
        ensures { result ≡ self.now.moving }
    {
        self.moving
    }

    /// What every setup keeps. This does nothing.
    pub fn is_situation(&self)
        ensures { IsSituation self.now }
    {
        let _ = &self.stage;
    }

    fn begin_section(&mut self, stage: Stage)
        requires { IsSituation (in_section_of stage self.old) }
        ensures { self.new ≡ in_section_of stage self.old }
    {
        self.stage = stage;
        self.seen.clear();
    }

    fn add_window(&mut self, base: u64, lines: u32)
        requires room { length self.old.windows < 16 }
        requires is { IsSituation (record self.old { windows = self.old.windows ++ (base, lines) ∷ [] }) }
        ensures { self.new ≡ record self.old { windows = self.old.windows ++ (base, lines) ∷ [] } }
    {
        self.windows.push((base, lines));
    }

    fn add_register(&mut self, msr: u32)
        requires room { length self.old.seen < 77 }
        requires is { IsSituation (record self.old { seen = self.old.seen ++ msr ∷ [] }) }
        ensures { self.new ≡ record self.old { seen = self.old.seen ++ msr ∷ [] } }
    {
        self.seen.push(msr);
    }

    /// Moves on by a command that a line was read as, unless it ends the dump.
    #[inline(always)]
    pub fn accept(&mut self, c: &Command)
        requires fits { Fits self.old c.now }
        requires goes_on { is_in_dump self.old.stage ≡ true → c.now ≢ Command.Section Section.End }
        ensures { self.new ≡ accepted self.old c.now }
    {
        self.is_situation(); // a fact for the proof
        match *c {
            Command::Cpus(n) => {
                self.stage = Stage::NeedDump;
                self.cpus = n;
            }
            Command::Dump => self.stage = Stage::InDump,
            Command::Ram(base, lines) => self.add_window(base, lines),
            Command::Section(line) => match line {
                Section::Update => self.begin_section(Stage::InUpdate),
                Section::Begin => self.begin_section(Stage::InBegin),
                Section::Register { msr, .. } => self.add_register(msr),
                Section::End => self.begin_section(Stage::Commands),
            },
            Command::Newcomer(_) | Command::Retire => {
                self.stage = Stage::Commands;
                self.moving = true;
            }
            Command::Selfsnoop(_) | Command::Blank | Command::DumpLine => {}
            Command::Ask(..) | Command::Go | Command::Cancel | Command::Report | Command::Word(_) =>
                self.stage = Stage::Commands,
        }
    }

    /// Keeps the dump, at its end. It has a file for each processor, or in version 1 one for all.
    pub fn dumped(&mut self, d: Dump)
        requires stage { is_in_dump self.old.stage ≡ true }
        requires each { has_each self.old.cpus d ≡ true }
        ensures { self.new ≡ finished self.old d }
    {
        self.stage = Stage::Rams;
        self.dump = Some(d);
        self.seen.clear();
    }
}
