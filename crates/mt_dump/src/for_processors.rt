ghost use Rattle.std.specs.Prelude.{◌≡◌, ◌≤◌, true, length};
ghost use Rattle.std.specs.List.{All};
ghost use Rattle.mt_regs.specs.Faults.{IsAccepted};
ghost use Rattle.mt_regs.specs.StartFiles.{AreStartFiles};
ghost use Rattle.mt_dump.specs.ForProcessors.{files_for, has_each};

use crate::dumps::Dump;
use arrayvec::ArrayVec;
use mt_regs::RegFile;

impl Dump {
    /// Whether there is a file for each of so many processors. In version 1 one file is for all.
    pub fn has_each(&self, cpus: u32) -> bool
        ensures { result ≡ has_each cpus self.now }
    {
        self.version != 2 || self.files.len() == cpus as usize
    }

    /// The files with which so many processors begin, processor 0's first.
    pub fn files_for(&self, cpus: u32) -> ArrayVec<RegFile, 16>
        requires { cpus ≤ 16 }
        ensures files { result.items ≡ files_for cpus self.now }
        ensures count { has_each cpus self.now ≡ true → length result.items ≡ cpus }
        ensures start { All IsAccepted self.now.files → AreStartFiles result.items }
    {
        if self.version == 2 {
            self.copy().files
        } else {
            self.first_file().copies(cpus)
        }
    }
}
