ghost use Rattle.std.specs.Prelude.{◌∷◌, [], true};
ghost use Rattle.mt_plain.specs.Due.{IsTold};
ghost use Rattle.mt_plain.specs.WorkedTurns.{alone, called, told_processor, told_update};

/// Words that tell of an update, and words that don't for one thing.
pub fn worked_told_updates()
    ensures told { IsTold told_update told_processor called (alone ∷ []) alone }
    ensures other_phase { IsTold told_update (record told_processor { phase = 1 }) called (alone ∷ []) alone → ⊥ }
    ensures finished { IsTold told_update (record told_processor { finished = 1 }) called (alone ∷ []) alone → ⊥ }
    ensures other_word { IsTold (record told_update { word = 1 }) told_processor called (alone ∷ []) alone → ⊥ }
    ensures two { IsTold (record told_update { processors = 2 }) told_processor called (alone ∷ []) alone → ⊥ }
    ensures arrived { IsTold (record told_update { arrived = 1 }) told_processor called (alone ∷ []) alone → ⊥ }
    ensures arrived_again { IsTold (record told_update { arrived_again = 1 }) told_processor called (alone ∷ []) alone → ⊥ }
    ensures self_snoop { IsTold told_update (record told_processor { self_snoop = 1 }) called (alone ∷ []) alone → ⊥ }
    ensures other_registers { IsTold told_update (record told_processor { registers = 3 }) called (alone ∷ []) alone → ⊥ }
{}
