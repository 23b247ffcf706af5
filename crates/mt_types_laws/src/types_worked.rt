ghost use Rattle.mt_types.specs.Runs.{IsTypeMap};
ghost use Rattle.mt_types_laws.specs.WorkedMaps.{three};

/// A type map of three runs.
pub fn worked_maps()
    ensures { IsTypeMap three }
{}
