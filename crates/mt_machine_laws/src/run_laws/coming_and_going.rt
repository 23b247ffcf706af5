ghost use Rattle.mt_laws.specs.ComingAndGoing.{GoneKeepsWords, GoneStaysFresh, GoneStaysQuiet, GoneStaysSound, OthersStand, ResetStaysFresh, ResetStaysQuiet, ResetStaysSound};

/// When a processor comes up, a sound system stays sound, and a quiet machine quiet.
pub fn newcomers_stay_quiet()
    ensures sound { ResetStaysSound }
    ensures quiet { ResetStaysQuiet }
{}

/// When the last processor goes, a sound system stays sound, and a quiet machine quiet.
pub fn goers_stay_quiet()
    ensures sound { GoneStaysSound }
    ensures quiet { GoneStaysQuiet }
{}

/// When the last processor of a sound system goes, each word keeps the value that it had once that one's buffers were
/// emptied. The others keep all but lines and buffers.
pub fn goers_keep_words()
    ensures words { GoneKeepsWords }
    ensures others { OthersStand }
{}

/// Where nothing that is held is of an earlier era than its processor's, it is so with a newcomer too, and when the
/// last processor is gone.
pub fn comers_and_goers_stay_fresh()
    ensures come { ResetStaysFresh }
    ensures gone { GoneStaysFresh }
{}
