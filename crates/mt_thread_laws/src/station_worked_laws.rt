// Each law on the steps of a station, at one step of a worked station that meets the rule; and the laws on a station whose
// second count is full, on processors that have ended, and on where a station begins.
ghost use Rattle.std.specs.Prelude.{◌≡◌, ◌≤◌, [], None, Some, length, slice_index};
ghost use Rattle.std.specs.List.{All};
ghost use Rattle.mt_machine.specs.declared.go.Go.TheVariants.{Given, Cancelled};
ghost use Rattle.mt_machine.specs.declared.event.Event.TheVariants.{Arrive, ArriveAgain, Pass, Release, SetNoFill};
ghost use Rattle.mt_machine.specs.Machine.{Cancels as CancelsUpdate, Goes, Steps};
ghost use Rattle.mt_machine.specs.Memory.{word_at};
ghost use Rattle.mt_machine.specs.Update.{Led};
ghost use Rattle.mt_laws.specs.Updates.{HoldsNothing};
ghost use Rattle.mt_rendezvous.specs.declared.view.Key.{Key};
ghost use Rattle.mt_rendezvous.specs.Station.{Begins, Meets, broadcast, first_view, start_of};
ghost use Rattle.mt_rendezvous.specs.Plays.{with_go};
ghost use Rattle.mt_rendezvous.specs.Laws.{ArriveAgainFollows, ArriveFollows, CancelFollows, GoFollows, JoinFollows, PassFollows, ReleaseFollows, SplitFollows, WorkFollows};
ghost use Rattle.mt_rendezvous.specs.Laws.{BroadcastBegins, EachStepFollows, HoldsWhereFull, IsLedTo, IsOneStep, LeftWhereCancelled, ReleasedWhereFull, ShownIsFound, StandsForOne, machine_of, raised, seat_step};
ghost use Rattle.mt_thread_laws.specs.WorkedLone.{StationMoves, arrived, arrived_again, cancelled, ended, fills_not, free, left, lone, out, pass_of, passed, restored, sits, taken, taken_back, waits};
ghost use Rattle.mt_thread_laws.specs.WorkedStations.{at_start, bare, split_once, start};

/// The root's steps: it gives a processor away, says go, cancels, and takes a processor back.
pub fn worked_laws_of_the_root()
    ensures split { SplitFollows → (key : Key) → start_of key ≡ start → StationMoves key (at_start key) (split_once key) None }
    ensures go { GoFollows → (key : Key) → start_of key ≡ start → StationMoves key (at_start key) (raised (at_start key) 0 (with_go (first_view key) Given, []) 0 1) (Some Goes) }
    ensures cancel { CancelFollows → (key : Key) → start_of key ≡ start
        → StationMoves key (at_start key) (raised (at_start key) 0 (with_go (first_view key) Cancelled, []) 0 0x100000000) (Some CancelsUpdate) }
    ensures join { JoinFollows → (key : Key) → start_of key ≡ lone → StationMoves key (left key) (taken_back key) None }
{}

/// A pass's steps at the first barrier: it arrives, and passes.
pub fn worked_laws_of_the_first_barrier()
    ensures arrive { ArriveFollows → (key : Key) → start_of key ≡ lone → StationMoves key (taken key) (waits key) (Some (Steps 0 Arrive)) }
    ensures pass { PassFollows → (key : Key) → start_of key ≡ lone → StationMoves key (arrived key) (passed key) (Some (Steps 0 Pass)) }
{}

/// The store of its own phase between the barriers, and its steps at the second barrier.
pub fn worked_laws_of_the_change()
    ensures phase { WorkFollows → (key : Key) → start_of key ≡ lone → StationMoves key (passed key) (fills_not key) (Some (Steps 0 SetNoFill)) }
    ensures arrive_again { ArriveAgainFollows → (key : Key) → start_of key ≡ lone → StationMoves key (restored key) (arrived_again key) (Some (Steps 0 ArriveAgain)) }
    ensures release { ReleaseFollows → (key : Key) → start_of key ≡ lone → StationMoves key (arrived_again key) (ended key) (Some (Steps 0 Release)) }
{}

/// The last step at the second barrier, as one of every step.
pub fn worked_law_of_every_step()
    ensures released { EachStepFollows → (key : Key) → start_of key ≡ lone
        → (m : Meets key (arrived_again key)) × IsOneStep key (arrived_again key) m (seat_step 1 1 0 (bare (pass_of (start_of key) (Some 1) free))) }
    ensures shown { ShownIsFound → (bare (pass_of lone (Some 1) free)).0.shown ≡ Some 1 }
{}

/// What the law on every step refuses: to leave by the addition to word 0 where the cancel stands there, and to be
/// released by the addition to word 1.
pub fn worked_steps_at_once()
    ensures cancelled { (key : Key) → start_of key ≡ lone → Meets key (cancelled key) }
    ensures leaves { (key : Key) → start_of key ≡ lone → (m : Meets key (cancelled key)) → IsOneStep key (cancelled key) m (seat_step 1 0 1 (sits (start_of key) out)) → ⊥ }
    ensures restored { (key : Key) → start_of key ≡ lone → Meets key (restored key) }
    ensures released { (key : Key) → start_of key ≡ lone → (m : Meets key (restored key)) → IsOneStep key (restored key) m (seat_step 1 1 1 (sits (start_of key) free)) → ⊥ }
{}

/// A station at its second barrier is led to and stands for one machine, which has the goal's registers and holds
/// nothing; both words that were dirty are in memory.
pub fn worked_laws_of_stations()
    ensures led { IsLedTo → (key : Key) → start_of key ≡ lone → (m : Meets key (arrived_again key)) × Led (broadcast (start_of key)) (machine_of key (arrived_again key) m) }
    ensures one { StandsForOne → (key : Key) (m n : Meets key (arrived_again key)) → machine_of key (arrived_again key) m ≡ machine_of key (arrived_again key) n }
    ensures holds { HoldsWhereFull → (key : Key) → start_of key ≡ lone → (m : Meets key (arrived_again key))
        × All (HoldsNothing key.goal.value) (machine_of key (arrived_again key) m).system.processors
        × (word_at (machine_of key (arrived_again key) m).system.memory 0x100008 ≡ 6)
        × (word_at (machine_of key (arrived_again key) m).system.memory 0x100010 ≡ 7) }
{}

/// A processor that left, one that was released, and two that have taken, of which a station can be gathered.
pub fn worked_laws_of_ends()
    ensures left { LeftWhereCancelled → (key : Key) → start_of key ≡ lone → (m : Meets key (left key)) × (m.go ≡ Cancelled) × (0x100000000 ≤ slice_index (left key).words 0) }
    ensures released { ReleasedWhereFull → (key : Key) → start_of key ≡ lone
        → (m : Meets key (ended key)) × (m.go ≡ Given) × (slice_index (ended key).words 1 ≡ length key.cpus.value.items) }
    ensures begins { BroadcastBegins → Begins start }
{}
