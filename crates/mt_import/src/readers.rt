ghost use Rattle.std.specs.Prelude.{◌≡◌, ◌≤◌, Option, length};
ghost use Rattle.mt_import.specs.declared.format.Format.{Format};
ghost use Rattle.mt_import.specs.Readers.{tries_in};
ghost use Rattle.mt_import.specs.Tries.{Begins, LeadsOn};

use crate::tries::Tries;
use crate::{Format, Supplied};
use mt_text::Line;
use std::marker::Model;

/// What the lines of a log have shown so far, by no format and by each.
#[derive(Drop)]
pub struct Readers {
    none: Tries,
    xen: Tries,
    linux: Tries,
    coreboot: Tries,
    edk2: Tries,
    inteltool: Tries,
    x86info: Tries,
    rdmsr: Tries,
    chipsec: Tries,
    windbg: Tries,
    plain: Tries,
}

impl Model for Readers {
    ghost use Rattle.mt_import.specs.Readers.{AllTries};

    ghost Value = { AllTries };

    ghost view = { λ r. record { none = r.none; xen = r.xen; linux = r.linux; coreboot = r.coreboot; edk2 = r.edk2; inteltool = r.inteltool; x86info = r.x86info; rdmsr = r.rdmsr; chipsec = r.chipsec; windbg = r.windbg; plain = r.plain } };
}

impl Readers {
    /// Of no line.
    pub(crate) fn new() -> Readers
        ensures { (format : Option Format) → Begins format (tries_in result format) }
    {
        Readers {
            none: Tries::new(None),
            xen: Tries::new(Some(Format::Xen)),
            linux: Tries::new(Some(Format::Linux)),
            coreboot: Tries::new(Some(Format::Coreboot)),
            edk2: Tries::new(Some(Format::Edk2)),
            inteltool: Tries::new(Some(Format::Inteltool)),
            x86info: Tries::new(Some(Format::X86info)),
            rdmsr: Tries::new(Some(Format::Rdmsr)),
            chipsec: Tries::new(Some(Format::Chipsec)),
            windbg: Tries::new(Some(Format::Windbg)),
            plain: Tries::new(Some(Format::Plain)),
        }
    }

    /// Takes a line that isn't too long.
    pub(crate) fn take_line(&mut self, supplied: &Supplied, line: &Line<'_>)
        requires { length line.now.bytes.now ≤ 4096 }
        ensures { (format : Option Format) → LeadsOn supplied.now line.now.bytes.now line.now.number (tries_in self.old format) (tries_in self.new format) }
    {
        self.none.take_line(supplied, line);
        self.xen.take_line(supplied, line);
        self.linux.take_line(supplied, line);
        self.coreboot.take_line(supplied, line);
        self.edk2.take_line(supplied, line);
        self.inteltool.take_line(supplied, line);
        self.x86info.take_line(supplied, line);
        self.rdmsr.take_line(supplied, line);
        self.chipsec.take_line(supplied, line);
        self.windbg.take_line(supplied, line);
        self.plain.take_line(supplied, line);
    }

    /// What they have shown by this format.
    pub(crate) fn by(&self, format: Option<Format>) -> &Tries
        ensures { result.now ≡ tries_in self.now format }
    {
        match format {
            None => &self.none,
            Some(Format::Xen) => &self.xen,
            Some(Format::Linux) => &self.linux,
            Some(Format::Coreboot) => &self.coreboot,
            Some(Format::Edk2) => &self.edk2,
            Some(Format::Inteltool) => &self.inteltool,
            Some(Format::X86info) => &self.x86info,
            Some(Format::Rdmsr) => &self.rdmsr,
            Some(Format::Chipsec) => &self.chipsec,
            Some(Format::Windbg) => &self.windbg,
            Some(Format::Plain) => &self.plain,
        }
    }
}
