//! Laws of loops and states.
ghost use Rattle.std.specs.Prelude.{◌≡◌, ℕ, List, ◌++◌, Option, Some, slice_get};
ghost use Rattle.cf_ids.specs.declared.numbers.ItemKind.{ItemKind};
ghost use Rattle.cf_syntax.specs.declared.script.Script.{Script};
ghost use Rattle.cf_syntax.specs.declared.statement.Statement.{Statement};
ghost use Rattle.rl_base.specs.declared.places.Place.{Place};
ghost use Rattle.rl_modes.specs.Loops.{Loop, holds_at};
ghost use Rattle.cf_graph.specs.Edges.{Reference, has};
ghost use Rattle.cf_graph.specs.Flows.{Flow, IsThere, flowed};
ghost use Rattle.cf_contents.specs.Contents.{Object};
ghost use Rattle.cf_contents.specs.Deeds.{Change, deed_at, with_change};
ghost use Rattle.cf_next.specs.Stands.{Frame};
ghost use Rattle.cf_next.specs.Demands.{Demand};
ghost use Rattle.cf_model.specs.State.{Parts, State};
ghost use Rattle.cf_model.specs.Steps.{step_of};
ghost use Rattle.cf_model.specs.Things.{thing_of};
ghost use Rattle.cf_model.specs.Deals.{holder_at};
ghost use Rattle.cf_loops.specs.Following.{AreLoops, DemandLeavesLoops, IsElsewhere, KeepsKind, KeepsKinds, SameItems, SamePlaces, kind_in, loop_at};

/// A place of a loop holds an item exactly if the state has a reference of it.
pub fn loops_are_told()
    ensures { (s : Script) (p : Parts) (es : List Reference) (loops : List Loop) → AreLoops s p es loops
        → (t i : ℕ) (q : Place) → has (holder_at t q) i es ≡ holds_at (loop_at t loops).held i q }
{}

/// Loops stay those of a state while each place of a loop has the same references, the common modes are the same, and
/// each item is there and is of its kind. So it is after a flow that has nothing to do with places of loops.
pub fn loops_are_kept()
    ensures places { (s : Script) (p q : Parts) (es fs : List Reference) (loops : List Loop) → AreLoops s p es loops
        → SameItems p q → SamePlaces es fs → AreLoops s q fs loops }
    ensures flows { (s : Script) (p q : Parts) (es : List Reference) (flow : Flow) (loops : List Loop)
        → AreLoops s p es loops → SameItems p q → IsElsewhere flow → IsThere flow es
        → AreLoops s q (flowed flow es) loops }
{}

/// Items stay, each of its kind, when objects come after those that are there, and when an object is changed, if the
/// change gives an item no other kind. The deed of a statement gives none, whatever object it changes.
pub fn items_stay()
    ensures made { (objects more : List Object) → KeepsKinds objects (objects ++ more) }
    ensures changed { (o : ℕ) (change : Change) (objects : List Object)
        → ((k : ItemKind) → kind_in (thing_of (slice_get objects o)) ≡ Some k → KeepsKind change k)
        → KeepsKinds objects (with_change o change objects) }
    ensures deeds { (s : Script) (o : ℕ) (objects : List Object) (x : Statement) (used : List (Option ℕ))
        → KeepsKinds objects (with_change o (deed_at s.classes objects x used).change objects) }
{}

/// The step of what a thread demands has nothing to do with places of loops, but for the forms `add`, `drop`, `common`
/// and `invalidate` and for an item that is spent.
pub fn demands_leave_loops()
    ensures { (s : Script) (t : ℕ) (st : State) (frames : List Frame) (d : Demand) → DemandLeavesLoops d
        → IsElsewhere (step_of s t st frames d).flow }
{}
