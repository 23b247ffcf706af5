ghost use Rattle.std.specs.Prelude.{codes, ◌≡◌, ◌++◌, replicate, true};
ghost use Rattle.mt_script.specs.Newcomers.{IsWithoutNewcomers, brings_up};
ghost use Rattle.mt_text_laws.specs.Places.{StandsIn};

/// Where a fault of a line may stand.
pub fn worked_places()
    ensures first { StandsIn 3 (codes "load 1") (record { line = 3; column = 1 }) }
    ensures between { StandsIn 3 (codes "load 1") (record { line = 3; column = 5 }) → ⊥ }
    ensures other_line { StandsIn 3 (codes "load 1") (record { line = 4; column = 1 }) → ⊥ }
    ensures past_the_limit { StandsIn 3 (codes "go" ++ replicate 4095 32) (record { line = 3; column = 4097 }) }
    ensures not_so_long { StandsIn 3 (codes "load 1") (record { line = 3; column = 4097 }) → ⊥ }
{}

/// Lines that bring a processor up, and texts without any.
pub fn worked_newcomers()
    ensures up { brings_up (codes " up # one more") ≡ true }
    ensures without { IsWithoutNewcomers (codes "retire\nupdate\n# join") }
    ensures with_one { IsWithoutNewcomers (codes "retire\njoin\n") → ⊥ }
{}
