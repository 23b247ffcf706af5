// Processors that come up and go while no update is under way.
ghost use Rattle.std.specs.Prelude.{◌≡◌, ◌<◌, ◌≤◌, IfOk, None, OnErr, OnOk, length};
ghost use Rattle.mt_machine.specs.ComingAndGoing.{last_number, with_newcomer, without_last};

use crate::core_type::Core;
use mt_ports::NoMemory;

impl Core {
    /// Brings one processor up, behind the others, with their width, capabilities and era. Its registers are blank, its
    /// cache is in no-fill mode, and it runs and holds nothing. Returns its number.
    ///
    /// # Errors
    ///
    /// Fails if an allocation fails; nothing then changes.
    pub fn come_up(&mut self) -> Result<u32, NoMemory>
        requires idle { self.old.order ≡ None }
        requires some { 0 < length self.old.system.processors }
        requires few { length self.old.system.processors ≤ 15 }
        ensures number { IfOk result (λ k. k ≡ length self.old.system.processors) }
        ensures come { OnOk result (self.new ≡ with_newcomer self.old) }
        ensures kept { OnErr result (self.new ≡ self.old) }
    {
        let k = self.system.come_up()?;
        Ok(k)
    }

    /// Takes the last processor away. Its buffers are emptied, the oldest first, and its dirty words are written to
    /// memory. Returns its number.
    pub fn go_down(&mut self) -> u32
        requires idle { self.old.order ≡ None }
        requires more { 1 < length self.old.system.processors }
        ensures number { result ≡ last_number self.old.system }
        ensures gone { self.new ≡ without_last self.old }
    {
        self.system.go_down()
    }
}
