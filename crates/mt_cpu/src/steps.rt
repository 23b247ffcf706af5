ghost use Rattle.std.specs.Prelude.{◌≡◌, ◌<◌, ◌≤◌, ◌+◌, ◌-◌, ◌^◌, List, [], None, Some, IsTrue, length, if◌then◌else◌};
ghost use Rattle.std.specs.List.{All};
ghost use Rattle.mt_kinds.specs.Bits.{is_bit_set};
ghost use Rattle.mt_regs.specs.RegisterFile.{RegisterFile};
ghost use Rattle.mt_regs.specs.Registers.{writable};
ghost use Rattle.mt_regs.specs.Faults.{IsAccepted};
ghost use Rattle.mt_cache.specs.Lines.{first_dirty_line};
ghost use Rattle.mt_machine.specs.System.{Processor};
ghost use Rattle.mt_machine.specs.Machine.{FitsGoal, Order, due, first_flush, own_step, write_back_or_drop, write_or_enable};
ghost use Rattle.mt_cpu.specs.Steps.{HasFirst, HasWritten, is_first_flushing, is_local, is_shift, is_writing_back};

use crate::cpu::Cpu;
use mt_cache::Cache;
use mt_kinds::{DEF_TYPE_E, LINE_BYTES, WORD_BYTES, is_bit_set};
use mt_machine::{Event, Phase};
use mt_regs::{RegFile, Register};

/// Whether a phase is one from Passed to Normal, in each of which a processor's next event looks at nothing
/// but the processor and the goal.
pub fn is_local(phase: Phase) -> bool
    ensures { result ≡ is_local phase }
{
    !matches!(
        phase,
        Phase::Running | Phase::Taken | Phase::Arrived | Phase::Restored | Phase::Arrived2
    )
}

// A value of the default-type register with E clear.
fn without_enable(deftype: u64) -> u64
    ensures { result ≡ (if is_bit_set deftype 11 then deftype - 2 ^ 11 else deftype) }
{
    if is_bit_set(deftype, DEF_TYPE_E) {
        deftype - (1 << DEF_TYPE_E)
    } else {
        deftype
    }
}

// Drops all lines, of which none has a dirty word. A cache without lines isn't touched.
fn drop_any(cache: &mut Cache)
    requires { first_dirty_line cache.old ≡ None }
    ensures { cache.new ≡ [] }
{
    if cache.len() > 0 {
        cache.empty();
    }
}

impl Cpu {
    fn set_no_fill(&mut self)
        requires { self.old.phase ≡ Phase.Passed }
        ensures { (goal : RegisterFile) → self.new ≡ own_step goal Event.SetNoFill self.old }
    {
        self.state.cd = true;
        self.state.phase = Phase::NoFill;
    }

    // All lines are dropped. None has a dirty word.
    fn drop_lines(&mut self)
        requires clean { first_dirty_line self.old.lines ≡ None }
        requires phase { IsTrue (is_writing_back self.old.phase) }
        ensures { (goal : RegisterFile) → self.new ≡ own_step goal Event.DropLines self.old }
    {
        drop_any(&mut self.state.cache);
        self.state.phase = match self.state.phase {
            Phase::Enabled => Phase::Flushed2,
            _ => Phase::Flushed,
        };
    }

    // The first dirty word is marked clean, or else all lines are dropped.
    fn write_back_or_drop(&mut self) -> Event
        requires phase { IsTrue (is_writing_back self.old.phase) }
        requires numbers { All (λ l. l.number < 2 ^ 46) self.old.lines }
        ensures event { result ≡ write_back_or_drop self.old }
        ensures step { (goal : RegisterFile) → self.new ≡ own_step goal result self.old }
    {
        let state = &mut *self.state;
        let Some((i, word)) = state.cache.first_dirty() else {
            self.drop_lines();
            return Event::DropLines;
        };
        let line = state.cache.nth(i);
        let address = LINE_BYTES * line.number + WORD_BYTES * word as u64;
        let value = line.words[word as usize];
        state.cache.clean_word(i, word);
        Event::WriteBack { address, value }
    }

    // PGE is remembered and cleared, and all entries go. With PGE clear a reload of CR3 drops all.
    fn flush_tlb(&mut self)
        requires { IsTrue (is_first_flushing self.old.phase) }
        ensures { (goal : RegisterFile) → self.new ≡ own_step goal Event.FlushTlb self.old }
    {
        let state = &mut *self.state;
        state.had_pge = state.pge;
        state.pge = false;
        state.tlb.drop_all();
        state.phase = Phase::TlbFlushed;
    }

    // The first flush: the lines, or the TLB at once where the processor is self-snooping.
    fn first_flush(&mut self) -> Event
        requires phase { self.old.phase ≡ Phase.NoFill }
        requires numbers { All (λ l. l.number < 2 ^ 46) self.old.lines }
        ensures event { result ≡ first_flush self.old }
        ensures step { (goal : RegisterFile) → self.new ≡ own_step goal result self.old }
    {
        if self.state.self_snoop {
            self.flush_tlb();
            return Event::FlushTlb;
        }
        self.write_back_or_drop()
    }

    fn flush_tlb_again(&mut self)
        requires { self.old.phase ≡ Phase.Flushed2 }
        ensures { (goal : RegisterFile) → self.new ≡ own_step goal Event.FlushTlb self.old }
    {
        self.state.tlb.drop_local();
        self.state.phase = Phase::TlbFlushed2;
    }

    fn disable(&mut self)
        requires { self.old.phase ≡ Phase.TlbFlushed }
        ensures { (goal : RegisterFile) → self.new ≡ own_step goal Event.Disable self.old }
    {
        let deftype = without_enable(self.state.regs.deftype);
        self.state.regs.put(Register::DefaultType, deftype);
        self.state.phase = Phase::Writing(0);
    }

    // The register at a place gets the goal's value.
    fn write_register(&mut self, i: u32, goal: &RegFile)
        requires phase { self.old.phase ≡ Phase.Writing i }
        requires fits { FitsGoal goal.now self.old }
        requires word { i + 1 < 2 ^ 32 }
        requires more { i + 1 < length (writable self.old.file) }
        ensures { self.new ≡ own_step goal.now (Event.Write i) self.old }
    {
        let state = &mut *self.state;
        goal.is_register_file(); // a fact for the proof
        state.regs.is_register_file(); // a fact for the proof
        let Some(register) = goal.register_at(i) else {
            unreachable!()
        };
        state.regs.put(register, goal.value_of(register));
        state.phase = Phase::Writing(i + 1);
    }

    // The last register gets the goal's value, which turns the ranges on.
    fn enable(&mut self, i: u32, goal: &RegFile)
        requires phase { self.old.phase ≡ Phase.Writing i }
        requires accepted { IsAccepted goal.now }
        requires fits { FitsGoal goal.now self.old }
        requires last { length (writable self.old.file) ≤ i + 1 }
        requires written { HasFirst i goal.now self.old.file }
        ensures { self.new ≡ own_step goal.now Event.Enable self.old }
    {
        let state = &mut *self.state;
        goal.is_register_file(); // a fact for the proof
        state.regs.is_register_file(); // a fact for the proof
        state.regs.put(Register::DefaultType, goal.deftype);
        state.phase = Phase::Enabled;
    }

    fn set_normal(&mut self)
        requires { self.old.phase ≡ Phase.TlbFlushed2 }
        ensures { (goal : RegisterFile) → self.new ≡ own_step goal Event.SetNormal self.old }
    {
        self.state.cd = false;
        self.state.phase = Phase::Normal;
    }

    fn restore_pge(&mut self)
        requires { self.old.phase ≡ Phase.Normal }
        ensures { (goal : RegisterFile) → self.new ≡ own_step goal Event.RestorePge self.old }
    {
        self.state.pge = self.state.had_pge;
        self.state.had_pge = false;
        self.state.phase = Phase::Restored;
    }

    // The next register gets the goal's value, or the last one, which turns the ranges on.
    fn write_or_enable(&mut self, i: u32, goal: &RegFile) -> Event
        requires phase { self.old.phase ≡ Phase.Writing i }
        requires accepted { IsAccepted goal.now }
        requires fits { FitsGoal goal.now self.old }
        requires written { HasFirst i goal.now self.old.file }
        ensures event { result ≡ write_or_enable self.old i }
        ensures step { self.new ≡ own_step goal.now result self.old }
    {
        let count = self.state.regs.count();
        if i + 1 < count {
            self.write_register(i, goal);
            return Event::Write(i);
        }
        self.enable(i, goal);
        Event::Enable
    }

    /// Does the processor's next event, from the first barrier up to the return of PGE, and says
    /// which one it was. Where it is a write-back the word is marked clean, and the caller writes
    /// its value to memory.
    pub fn local(&mut self, goal: &RegFile) -> Event
        requires phase { IsTrue (is_local self.old.phase) }
        requires accepted { IsAccepted goal.now }
        requires fits { FitsGoal goal.now self.old }
        requires written { HasWritten goal.now self.old }
        requires numbers { All (λ l. l.number < 2 ^ 46) self.old.lines }
        ensures event { (o : Order) (ps : List Processor) → due o ps self.old self.old.phase ≡ Some result }
        ensures step { self.new ≡ own_step goal.now result self.old }
    {
        match self.state.phase {
            Phase::Passed => {
                self.set_no_fill();
                Event::SetNoFill
            }
            Phase::NoFill => self.first_flush(),
            Phase::Enabled => self.write_back_or_drop(),
            Phase::Flushed => {
                self.flush_tlb();
                Event::FlushTlb
            }
            Phase::TlbFlushed => {
                self.disable();
                Event::Disable
            }
            Phase::Writing(i) => self.write_or_enable(i, goal),
            Phase::Flushed2 => {
                self.flush_tlb_again();
                Event::FlushTlb
            }
            Phase::TlbFlushed2 => {
                self.set_normal();
                Event::SetNormal
            }
            Phase::Normal => {
                self.restore_pge();
                Event::RestorePge
            }
            Phase::Running | Phase::Taken | Phase::Arrived | Phase::Restored | Phase::Arrived2 =>
                unreachable!(),
        }
    }

    /// Moves the phase by an event of the barriers. A release raises the era.
    pub fn shift(&mut self, e: Event)
        requires enabled { IsTrue (is_shift e self.old.phase) }
        requires room { e ≡ Event.Release → self.old.era < 2 ^ 64 - 1 }
        requires empty { e ≡ Event.Take → self.old.buffers ≡ [] }
        ensures { (goal : RegisterFile) → self.new ≡ own_step goal e self.old }
    {
        match e {
            Event::Take => self.state.phase = Phase::Taken,
            Event::Arrive => self.state.phase = Phase::Arrived,
            Event::Leave => self.state.phase = Phase::Running,
            Event::Pass => self.state.phase = Phase::Passed,
            Event::ArriveAgain => self.state.phase = Phase::Arrived2,
            Event::Release => {
                self.state.phase = Phase::Running;
                self.state.era += 1;
            }
            _ => unreachable!(),
        }
    }
}
