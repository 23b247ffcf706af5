// Worked relations that laws cite: one that meets each, and for each part one that fails in that part.
ghost use Rattle.std.specs.Prelude.{◌≡◌, ◌∷◌, [], None, Some, true};
ghost use mathlib.Core.Option.{none, some};
ghost use Rattle.atomic_table.specs.Table.{opening, step};
ghost use Rattle.mt_machine.specs.declared.event.Event.TheVariants.{Arrive, Release, SetNoFill, WriteBack};
ghost use Rattle.mt_machine.specs.declared.go.Go.TheVariants.{Given, Pending};
ghost use Rattle.mt_machine.specs.declared.op.Op.TheVariants.{Fence, Load, Store};
ghost use Rattle.mt_machine.specs.Machine.{Accesses, Cancels, Goes, Steps};
ghost use Rattle.mt_rendezvous.specs.declared.view.Added.TheVariants.{Never, Once, Twice};
ghost use Rattle.mt_rendezvous.specs.declared.view.Key.{Key};
ghost use Rattle.mt_rendezvous.specs.Station.{start_of};
ghost use Rattle.mt_private.specs.OneByOne.{at_rest};
ghost use Rattle.mt_private.specs.Own.{AreApart, Becomes, Commute, IsOwner, RunsAlone, WritesOn, own_system, with_own};
ghost use Rattle.mt_private.specs.Pages.{IsPrivate};
ghost use Rattle.mt_private.specs.Residents.{Yard, scene, with_stored};
ghost use Rattle.mt_thread_laws.specs.Worked.{first_page, marked, pair, second_page, shared, sharing, uncached};
ghost use Rattle.mt_thread_laws.specs.WorkedYard.{at_start, both_lodged, first_lodged, first_state, lodged, lodging};
ghost use Rattle.mt_private.specs.YardLaws.{ComesOf, Has, IsOneEvent, Settles, Stores};
ghost use Rattle.mt_private.specs.YardRule.{MeetsYard, first_yard_view, with_decision, yard_left};

/// Two processors that name no page in common.
pub fn worked_shared()
    ensures private { IsPrivate pair }
{}

/// Who owns pages.
pub fn worked_owners()
    ensures owned { IsOwner first_page 0 pair }
    ensures nobody { IsOwner first_page 2 pair → ⊥ }
    ensures names_others { IsOwner second_page 0 pair → ⊥ }
    ensures named_by_two { IsOwner first_page 0 sharing → ⊥ }
    ensures apart { AreApart first_page second_page }
    ensures not_apart { AreApart first_page first_page → ⊥ }
{}

/// What comes of a system by what one processor did.
pub fn worked_becomes()
    ensures becomes { Becomes first_page 0 marked marked (own_system first_page 0 marked) }
    ensures other_own { Becomes first_page 0 marked marked (own_system first_page 0 pair) → ⊥ }
    ensures other_word { Becomes first_page 0 pair (with_own second_page 1 marked pair) (own_system first_page 0 pair) → ⊥ }
    ensures not_owned { Becomes first_page 0 sharing sharing (own_system first_page 0 sharing) → ⊥ }
{}

/// Accesses to own pages, and to a shared one.
pub fn worked_alone()
    ensures alone { RunsAlone first_page 0 (Store 0x1000 0x2a ∷ Load 0x1000 ∷ []) marked }
    ensures other_answers { RunsAlone first_page 0 (Load 0x1000 ∷ []) shared → ⊥ }
    ensures other_after { RunsAlone first_page 0 (Store 0x1000 0x2a ∷ []) shared → ⊥ }
{}

/// Accesses of two processors, to own pages and to a shared one that isn't cached; and events that write memory.
pub fn worked_commute()
    ensures commute { Commute 0 1 (Store 0x1000 1 ∷ []) (Store 0x1000 2 ∷ Load 0x1000 ∷ []) pair }
    ensures first { Commute 0 1 (Load 0x1000 ∷ []) (Store 0x1000 2 ∷ []) uncached → ⊥ }
    ensures second { Commute 0 1 (Store 0x1000 2 ∷ []) (Load 0x1000 ∷ []) uncached → ⊥ }
    ensures after { Commute 0 1 (Store 0x1000 1 ∷ []) (Store 0x1000 2 ∷ []) uncached → ⊥ }
    ensures writes { WritesOn first_page (WriteBack 0x100008 5) }
    ensures writes_elsewhere { WritesOn first_page (WriteBack 0x101000 5) → ⊥ }
{}

/// Which steps store in the own event word.
pub fn worked_event_words()
    ensures count { Stores first_lodged 0 9 first_lodged }
    ensures own { Stores first_lodged 2 9 (with_stored first_lodged 9) }
    ensures count_stored { Stores first_lodged 0 9 (with_stored first_lodged 9) → ⊥ }
    ensures elsewhere { Stores first_lodged 3 9 (with_stored first_lodged 9) → ⊥ }
    ensures otherwise { Stores first_lodged 2 9 first_lodged → ⊥ }
{}

/// Of which steps of a yard an event comes, and of which it doesn't.
pub fn worked_steps_of_yard_events()
    ensures released { ComesOf (step 0 1 0 0 none) (Some (Steps 0 Release)) }
    ensures released_by_addition { ComesOf (step 0 1 1 0 none) (Some (Steps 0 Release)) → ⊥ }
    ensures released_at_first { ComesOf (step 0 0 0 0 none) (Some (Steps 0 Release)) → ⊥ }
    ensures arrived_by_load { ComesOf (step 0 0 0 0 none) (Some (Steps 0 Arrive)) → ⊥ }
    ensures stored { ComesOf (step 0 2 1 0 none) (Some (Steps 0 SetNoFill)) }
    ensures counted { ComesOf (step 0 1 1 0 none) (Some (Steps 0 SetNoFill)) → ⊥ }
    ensures exchanged { ComesOf (step 0 2 0 1 (some Fence)) (Some (Steps 0 SetNoFill)) → ⊥ }
    ensures accessed { ComesOf (step 0 2 0 1 (some Fence)) (Some (Accesses 0 Fence)) }
    ensures accessed_in_a_count { ComesOf (step 0 1 0 1 (some Fence)) (Some (Accesses 0 Fence)) → ⊥ }
    ensures accessed_otherwise { ComesOf (step 0 2 0 1 (some (Load 0x1000))) (Some (Accesses 0 Fence)) → ⊥ }
    ensures cancelled_by_one { ComesOf (step 0 0 1 0 none) (Some Cancels) → ⊥ }
{}

/// A yard and its first resident.
pub fn worked_yards()
    ensures yard { Yard lodging (scene both_lodged Pending lodged) 0 0 }
    ensures no_yard { ¬ Yard lodging (scene both_lodged Pending lodged) 1 0 }
    ensures has { Has both_lodged 0 first_lodged Never }
    ensures has_elsewhere { ¬ Has both_lodged 1 first_lodged Never }
    ensures has_not_added { ¬ Has both_lodged 0 first_lodged Once }
    ensures has_not_added_again { ¬ Has both_lodged 0 first_lodged Twice }
{}

/// Words and views that don't meet the rule for one thing, and what isn't one event.
pub fn worked_yard_rule()
    ensures unstored { (key : Key) → start_of key ≡ lodging → MeetsYard key (at_start key (0 ∷ 0 ∷ 7 ∷ 0 ∷ [])) → ⊥ }
    ensures short { (key : Key) → start_of key ≡ lodging → MeetsYard key (at_start key (0 ∷ 0 ∷ 0 ∷ [])) → ⊥ }
    ensures counted { (key : Key) → start_of key ≡ lodging → MeetsYard key (at_start key (1 ∷ 0 ∷ 0 ∷ 0 ∷ [])) → ⊥ }
    ensures missing { (key : Key) → start_of key ≡ lodging → MeetsYard key (opening (0 ∷ 0 ∷ 0 ∷ 0 ∷ []) [] (yard_left (first_yard_view key))) → ⊥ }
    ensures uncounted { (key : Key) → start_of key ≡ lodging → MeetsYard key (opening (0 ∷ 0 ∷ 0 ∷ 0 ∷ []) [] (with_decision (first_yard_view key) Given)) → ⊥ }
    ensures untold { (key : Key) → start_of key ≡ lodging → MeetsYard key (opening (0 ∷ 0 ∷ 0 ∷ 0 ∷ []) [] (record (first_yard_view key) { cancel = true })) → ⊥ }
    ensures not_kept { (key : Key) → start_of key ≡ lodging → (m : MeetsYard key (first_state key)) → IsOneEvent key (first_state key) (at_start key (0 ∷ 0 ∷ 0 ∷ [])) m None → ⊥ }
    ensures not_enabled { (key : Key) → start_of key ≡ lodging → (m : MeetsYard key (first_state key)) → IsOneEvent key (first_state key) (first_state key) m (Some (Steps 7 Arrive)) → ⊥ }
    ensures not_gone_on { (key : Key) → start_of key ≡ lodging → (m : MeetsYard key (first_state key)) → IsOneEvent key (first_state key) (first_state key) m (Some Goes) → ⊥ }
{}

/// A machine before the update, which isn't settled.
pub fn worked_releases()
    ensures { Settles lodging (at_rest lodged) → ⊥ }
{}
