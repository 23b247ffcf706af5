ghost use Rattle.std.specs.Prelude.{◌≡◌, List};
ghost use Rattle.mt_regs.specs.RegisterFile.{IsRegisterFile, RegisterFile};
ghost use Rattle.mt_types.specs.declared.run.Run.{Run};
ghost use Rattle.mt_types.specs.Runs.{IsRunsOf};

/// A register file has one type map.
pub fn each_file_has_one_type_map()
    ensures some { (f : RegisterFile) → IsRegisterFile f → (runs : List Run) × IsRunsOf f runs }
    ensures one { (f : RegisterFile) (runs others : List Run) → IsRunsOf f runs → IsRunsOf f others → runs ≡ others }
{}
