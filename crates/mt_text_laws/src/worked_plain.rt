ghost use Rattle.std.specs.Prelude.{codes};
ghost use Rattle.mt_regs.specs.RegisterFile.{blank_file};
ghost use Rattle.mt_dump.specs.Plain.{PlainlyShown};
ghost use Rattle.mt_text_laws.specs.Worked.{two_registers_file};

/// Texts of the plain form, and the files that they show.
pub fn worked_plain_texts()
    ensures two_registers { PlainlyShown (codes "fe 400\n\n2ff\tc00\n") two_registers_file }
    ensures width { PlainlyShown (codes "fe 0\n maxphyaddr 040 ") (blank_file 40 0) }
{}
