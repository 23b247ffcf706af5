// Each law on the steps of a yard, at one step of a worked resident that is alone; the laws on a yard's table, at its start
// and once a resident was given away; its end; and the laws on own systems.
ghost use Rattle.std.specs.Prelude.{◌≡◌, ◌≤◌, ◌∷◌, [], None, Some, slice_index};
ghost use Rattle.atomic_table.specs.Seated.{TableId};
ghost use Rattle.mt_kinds.specs.declared.mem_type.MemType.TheVariants.{WB};
ghost use Rattle.mt_machine.specs.declared.done.Done.TheVariants.{Stored};
ghost use Rattle.mt_machine.specs.declared.event.Event.TheVariants.{Arrive, ArriveAgain, Leave, Pass, Release, SetNoFill, Take};
ghost use Rattle.mt_machine.specs.declared.go.Go.TheVariants.{Cancelled, Given, Pending};
ghost use Rattle.mt_machine.specs.declared.op.Op.TheVariants.{Fence, Load, Store};
ghost use Rattle.mt_machine.specs.declared.phase.Phase.TheVariants.{Arrived, Arrived2, Passed, Restored, Running, Taken};
ghost use Rattle.mt_machine.specs.Access.{access};
ghost use Rattle.mt_machine.specs.Machine.{Accesses, Cancels, Goes, Reached, Steps};
ghost use Rattle.mt_machine.specs.System.{System as MachineSystem};
ghost use Rattle.mt_rendezvous.specs.declared.view.Added.TheVariants.{Never, Once, Twice};
ghost use Rattle.mt_rendezvous.specs.declared.view.Key.{Key};
ghost use Rattle.mt_rendezvous.specs.Station.{broadcast, start_of};
ghost use Rattle.mt_private.specs.declared.job.Job.{Job as YardJob};
ghost use Rattle.mt_private.specs.declared.job.JobAnswers.{JobAnswers as YardTold};
ghost use Rattle.mt_private.specs.Alone.{JobsAlone, JobsRunAlone, UpdatesAlone, UpdatesRunAlone};
ghost use Rattle.mt_private.specs.Left.{YardEnds};
ghost use Rattle.mt_private.specs.OneByOne.{jobs_one_by_one};
ghost use Rattle.mt_private.specs.Residents.{Decides, ResidentFollows, Yard, accessed_by, move_of, own_of, scene, system_of, with_stored};
ghost use Rattle.mt_private.specs.Visitors.{EndsOneByOne, Returned};
ghost use Rattle.mt_thread_laws.specs.WorkedWay.{Becomes, YardGoesOn, HasNoAnswers, IsEmptyJob, LoadsFirst, TakesUnshown, changed, counted, fills_not, given, guest, joined, last_seat, left, lone_host, released, settled, split_taken};
ghost use Rattle.mt_thread_laws.specs.WorkedYard.{alone, first_state, lodged, lodging, split_state};
ghost use Rattle.mt_private.specs.YardLaws.{AdditionArrives, AdditionArrivesAgain, AdditionDecides, LoadLeaves, LoadPasses, LoadReleases, LoadStays, LoadTakes, StoreAccesses, StoreWorks};
ghost use Rattle.mt_private.specs.YardLaws.{EachStepFollows, IsOneMachine, IsReached, JoinIsNone, LeftWhereCancelled, MoveIsOneEvent, ReleasedWhereFull, DecisionIsOneEvent, Settles, ShownIsFound, SplitIsNone, StartMeetsRule, YardsSettle};
ghost use Rattle.mt_private.specs.YardRule.{MeetsYard, its_machine};

/// Loads of the counts.
pub fn worked_laws_of_loads()
    ensures takes { LoadTakes → YardGoesOn Pending (counted (guest Running Never) 0 0) (counted (guest Taken Never) 0 0) (Some (Steps 0 Take)) }
    ensures stays { LoadStays → YardGoesOn Pending (counted (guest Arrived Once) 1 0) (counted (guest Arrived Once) 1 0) None }
    ensures passes { LoadPasses → YardGoesOn Given (counted (guest Arrived Once) 2 0) (counted (guest Passed Once) 2 0) (Some (Steps 0 Pass)) }
    ensures leaves { LoadLeaves → YardGoesOn Cancelled (counted (guest Taken Once) 0x100000001 0) (counted (guest Running Once) 0x100000001 0) (Some (Steps 0 Leave)) }
    ensures releases { LoadReleases → YardGoesOn Given (counted (changed Arrived2 Twice) 2 1) (counted released 2 1) (Some (Steps 0 Release)) }
{}

/// Additions to the counts, by the pass and by the coordinator.
pub fn worked_laws_of_additions()
    ensures arrives { AdditionArrives → YardGoesOn Pending (counted (guest Taken Never) 0 0) (counted (guest Arrived Once) 1 0) (Some (Steps 0 Arrive)) }
    ensures decides { AdditionDecides → (s : MachineSystem) × Yard alone (scene (guest Arrived Once ∷ []) Pending s) 1 0
        × Decides alone (scene (guest Arrived Once ∷ []) Given s) 2 0 Goes × Decides alone (scene (guest Arrived Once ∷ []) Cancelled s) 0x100000001 0 Cancels }
    ensures arrives_again { AdditionArrivesAgain → YardGoesOn Given (counted (changed Restored Once) 2 0) (counted (changed Arrived2 Twice) 2 1) (Some (Steps 0 ArriveAgain)) }
{}

/// Stores of the own event word: an access before the update, and the event that is due behind the first barrier.
pub fn worked_laws_of_own_words()
    ensures accesses { StoreAccesses → (s : MachineSystem) × Yard alone (scene (guest Running Never ∷ []) Pending s) 0 0
        × ResidentFollows alone (scene (guest Running Never ∷ []) Pending s) (move_of 0 (with_stored (accessed_by (Store 0x1000 7) (guest Running Never)) 1) (Some (Accesses 0 (Store 0x1000 7)))) 0 0
        × ((access s 0 (Store 0x1000 7)).answer ≡ Stored WB) }
    ensures works { StoreWorks → YardGoesOn Given (counted (guest Passed Once) 2 0) (counted (with_stored fills_not 1) 2 0) (Some (Steps 0 SetNoFill)) }
{}

/// A yard of two at its start, and steps of its seats; and a yard of one, whose resident left or is released.
pub fn worked_laws_of_tables()
    ensures start { StartMeetsRule → (key : Key) → start_of key ≡ lodging → MeetsYard key (first_state key) }
    ensures reached { IsReached → (key : Key) → start_of key ≡ lodging → (m : MeetsYard key (first_state key)) × Reached (broadcast (start_of key)) (its_machine key (first_state key) m) }
    ensures one { IsOneMachine → (key : Key) (m n : MeetsYard key (first_state key)) → its_machine key (first_state key) m ≡ its_machine key (first_state key) n }
    ensures decides { DecisionIsOneEvent → (key : Key) → start_of key ≡ lodging → Becomes key (first_state key) (given key) (Some Goes) }
    ensures split { SplitIsNone → (key : Key) → start_of key ≡ lodging → Becomes key (first_state key) (split_state key) None }
    ensures moves { MoveIsOneEvent → (key : Key) → start_of key ≡ lodging → Becomes key (split_state key) (split_taken key) (Some (Steps 0 Take)) }
    ensures steps { EachStepFollows → (key : Key) → start_of key ≡ lodging → LoadsFirst key (split_state key) }
    ensures shown { ShownIsFound → (key : Key) → start_of key ≡ lodging → TakesUnshown key }
    ensures left { LeftWhereCancelled → (key : Key) → start_of key ≡ alone → (m : MeetsYard key (left key)) × (m.go ≡ Cancelled) × (0x100000000 ≤ slice_index (left key).words 0) }
    ensures released { ReleasedWhereFull → (key : Key) → start_of key ≡ alone → (m : MeetsYard key (settled key)) × (m.go ≡ Given) }
    ensures settles { YardsSettle → (key : Key) → start_of key ≡ alone → (m : MeetsYard key (settled key)) × Settles (start_of key) (its_machine key (settled key) m) }
    ensures join { JoinIsNone → (key : Key) → start_of key ≡ lodging → Becomes key (split_state key) (joined key) None }
{}

/// A yard whose one guest came back, with a job without accesses: it leaves what the update leaves.
pub fn worked_laws_of_ends()
    ensures { EndsOneByOne → (table : TableId) (job : YardJob) (told : YardTold) → IsEmptyJob job → HasNoAnswers told → (s : MachineSystem) × YardEnds alone last_seat.0 s
        × Returned (lone_host table) (job ∷ []) (Some (own_of released) ∷ []) (told ∷ [])
        × (s ≡ (jobs_one_by_one (system_of alone) alone.goal (job ∷ [])).left.system) }
{}

/// The laws on own systems, of a worked system.
pub fn worked_own_jobs()
    ensures updates { UpdatesRunAlone → UpdatesAlone lodged lodging.goal }
    ensures jobs_with_accesses { JobsRunAlone → JobsAlone lodged lodging.goal ((Store 0x1000 9 ∷ []) ∷ (Load 0x1000 ∷ Fence ∷ []) ∷ []) ((Load 0x1000 ∷ []) ∷ (Store 0x1000 8 ∷ []) ∷ []) }
{}
