//! Laws of journals, which hold of every script.
ghost use Rattle.std.specs.Prelude.{◌≡◌, ◌≢◌, ◌<◌, ℕ, true, false, List, [], ◌∷◌, ◌++◌, Option, Some, None, slice_get};
ghost use Rattle.cf_syntax.specs.declared.script.Script.{Script};
ghost use Rattle.cf_model.specs.declared.entry.Entry.{Entry};
ghost use Rattle.cf_model.specs.Bounds.{AddsFew, AreFew, FewOfLegal, FewReferences, GainsAreListed, NumbersOfLists};
ghost use Rattle.cf_model.specs.Choices.{IsDetermined};
ghost use Rattle.cf_model.specs.Changes.{ChangesCount, IsOneWay};
ghost use Rattle.cf_model.specs.Flowing.{ChangesGrow, GainsFew, GainsFit, HeldChanges, flow_in};
ghost use Rattle.cf_model.specs.Coming.{ComingIsHad, ComingStays, FirstIsNext, OwnStays};
ghost use Rattle.cf_model.specs.Finals.{FinalsFit};
ghost use Rattle.cf_model.specs.Growing.{GrowsBy};
ghost use Rattle.cf_model.specs.Journals.{After, IsLegal, Next};
ghost use Rattle.cf_model.specs.Leading.{LeadTells};
ghost use Rattle.cf_model.specs.Parcels.{HasOneAtMost};
ghost use Rattle.cf_model.specs.Owned.{GivesUp, NextIsLegal, ReleaseIsOwn, UsesFit};
ghost use Rattle.cf_model.specs.Sharing.{AllInView, IsEmpty, MadeWhereChanged, TimesByLead};
ghost use Rattle.cf_model.specs.Tokens.{HeldAsTold};
ghost use Rattle.cf_graph.specs.Edges.{Reference};
ghost use Rattle.cf_graph.specs.Flows.{cut_of as taken_by};
ghost use Rattle.cf_graph.specs.Holders.{parcel};
ghost use Rattle.cf_syntax.specs.Owned.{Owned};
ghost use Rattle.cf_syntax.specs.declared.statement.Statement.{Statement};
ghost use Rattle.cf_syntax.specs.BlockLines.{says};
ghost use Rattle.cf_syntax.specs.Stage.{is_of_stage, IsOfStage};
ghost use Rattle.cf_contents.specs.Contents.{Object};
ghost use Rattle.cf_contents.specs.Deeds.{deed_at, fresh, with_change};
ghost use Rattle.cf_next.specs.declared.action.Action.{Action};
ghost use Rattle.cf_next.specs.Actions.{cut_of};
ghost use Rattle.cf_next.specs.Stands.{Kind};
ghost use Rattle.cf_next.specs.Demands.{frame_lines};
ghost use Rattle.cf_model.specs.State.{Parts, State, stand_at};
ghost use Rattle.cf_model.specs.Steps.{demanded};
ghost use Rattle.cf_model.specs.Things.{thing_in, thing_of};
ghost use Rattle.cf_model.specs.Deals.{posts_of};
ghost use Rattle.cf_model.specs.Plain.{ActsOnBodies, DealsPlainly};

/// Two legal journals of a script with the same threads, and the same ticks and stalls of the lead, are equal: the
/// answer and the effect of a legal entry are functions of the state.
pub fn journals_are_determined()
    ensures { (s : Script) (es fs : List Entry) → IsDetermined s es fs }
{}

/// If a retain comes first of what comes next of a thread, it is the thread's next action, and the rest comes after
/// it.
pub fn first_is_next()
    ensures { (s : Script) (journal : List Entry) (t : ℕ) → FirstIsNext s journal t }
{}

/// Every legal journal of every script, owned or not, finalises each object at most once, uses none that is finalised
/// and adds no reference to one, and after it exactly those are unfinalised to which a reference leads.
pub fn finals_of_legal_journals()
    ensures { (s : Script) (es : List Entry) → IsLegal s es → FinalsFit s es }
{}

/// Of every legal journal of every script: entries of other threads, and ticks and stalls, change no reference of a
/// thread.
pub fn own_references_stay()
    ensures { (s : Script) (journal more : List Entry) (t : ℕ) → IsLegal s (journal ++ more)
        → OwnStays s journal more t }
{}

/// Of every legal journal of every script: each entry raises numbers of references or lowers them, and never does
/// both.
pub fn entries_go_one_way()
    ensures { (s : Script) (journal more : List Entry) (e : Entry) → IsLegal s (journal ++ e ∷ more)
        → IsOneWay s journal e }
{}

/// No more references lead to an object than it has changes, and the changes of a longer journal are those of its
/// beginning and those after it.
pub fn changes_count_references()
    ensures { (s : Script) (es : List Entry) (o : ℕ) → ChangesCount s es o }
{}

/// Of every legal journal of every script: the changes of an object grow in each entry by the references to it that
/// the entry adds, and by the one that it takes away.
pub fn changes_grow_by_flows()
    ensures { (s : Script) (journal more : List Entry) (e : Entry) → IsLegal s (journal ++ e ∷ more)
        → ChangesGrow s journal e }
{}

/// Of every legal journal of every script, for one who answers for some threads: after an entry of one of these, the
/// references to an object but those from other threads are those before it, with what it adds and without what it
/// takes away.
pub fn held_references_change_by_flows()
    ensures { (s : Script) (journal more : List Entry) (e : Entry) (ts : List ℕ) → IsLegal s (journal ++ e ∷ more)
        → HeldChanges s journal e ts }
{}

/// Of every legal journal of every script: what an entry adds references to is live, or it is the next object.
pub fn gains_are_live_or_new()
    ensures { (s : Script) (journal more : List Entry) (e : Entry) → IsLegal s (journal ++ e ∷ more)
        → GainsFit s journal e }
{}

/// No entry adds more than 1,025 references to one object.
pub fn entries_add_few_references()
    ensures { (s : Script) (journal : List Entry) (e : Entry) → GainsFew s journal e }
{}

/// After every list of entries of an owned script each holder holds what the state tells beside its references: a
/// variable what its lines gave it and did not take, a callout its item, a thread what its work owes, and a body
/// what is left of its slots.
pub fn held_along_journals()
    ensures { (s : Script) (es : List Entry) → Owned s → HeldAsTold s (After s es) }
{}

/// After every list of entries of an owned script, whatever a thread does next uses only what is live and at hand,
/// with a reference from the thread, its parcel or its loop, or from the body that the action names; so the next
/// action of a thread is legal with the answer that the state gives, where it makes no object too many.
pub fn next_actions_of_owned_scripts()
    ensures uses { (s : Script) (es : List Entry) → Owned s → UsesFit s es }
    ensures legal { (s : Script) (es : List Entry) → Owned s → NextIsLegal s es }
{}

/// After every list of entries of an owned script, where no thread has work left each finalised body has given up its
/// slots.
pub fn finalised_bodies_give_up()
    ensures { (s : Script) (es : List Entry) → Owned s → GivesUp s es }
{}

/// After every list of entries of an owned script, the release of a variable takes away that variable's reference.
pub fn releases_take_their_own()
    ensures { (s : Script) (es : List Entry) → Owned s → ReleaseIsOwn s es }
{}

/// After every list of entries of an owned script: entries of other threads, ticks and stalls take none of a thread's
/// next retains away; they may add some.
pub fn next_retains_stay()
    ensures { (s : Script) (journal more : List Entry) (t : ℕ) → Owned s → ComingStays s journal more t }
{}

/// After every list of entries of an owned script, a thread has a reference to each object that it retains next.
pub fn next_retains_are_had()
    ensures { (s : Script) (journal : List Entry) (t : ℕ) → Owned s → ComingIsHad s journal t }
{}

/// All references to an object are those that one who answers for some threads has in view, and those of other
/// threads.
pub fn references_in_view_and_of_others()
    ensures { (ts : List ℕ) (o : ℕ) (es : List Reference) → AllInView ts o es }
{}

/// After every legal journal of every script an object was made exactly if its changes are above 0.
pub fn made_objects_have_changes()
    ensures { (s : Script) (es : List Entry) → IsLegal s es → MadeWhereChanged s es }
{}

/// The times of the ticks of a legal journal are read off the entries of the lead alone.
pub fn lead_tells_the_times()
    ensures { (s : Script) (es : List Entry) → IsLegal s es → TimesByLead es }
{}

/// A script without threads has no reference and no next action.
pub fn nothing_without_threads()
    ensures { (s : Script) (es : List Entry) → s.thread_count ≡ 0 → IsEmpty s es }
{}

/// After every list of entries of every script a thread that is not done demands something, whatever handlers and runs
/// it is in.
pub fn threads_demand_until_done()
    ensures { (s : Script) (es : List Entry) (t : ℕ) → t < s.thread_count
        → (stand_at t (After s es).stands).is_done ≡ false → demanded s (After s es) t ≢ None }
{}

/// After every list of entries of an owned script, what a thread's next action takes a reference away from is what the
/// action names: of a release, of what is owed and of a slot that is given up their object, and nothing of any other.
pub fn actions_name_what_they_take()
    ensures { (s : Script) (es : List Entry) (t : ℕ) (a : Action) → Owned s → Next s (After s es) t ≡ Some a
        → taken_by (flow_in s t (After s es) a) ≡ cut_of a }
{}

/// The deed of a statement changes no item of a run loop and makes none: whatever body the change is in, each object is
/// the item that it was before.
pub fn deeds_change_no_item()
    ensures changed { (s : Script) (objects : List Object) (x : Statement) (used : List (Option ℕ)) (b i : ℕ)
        → thing_of (slice_get (with_change b (deed_at s.classes objects x used).change objects) i)
        ≡ thing_of (slice_get objects i) }
    ensures made { (s : Script) (objects : List Object) (x : Statement) (used : List (Option ℕ)) (new : Object)
        → (deed_at s.classes objects x used).origin ≡ fresh new → thing_in new.content ≡ None }
{}

/// What a line of a frame says is of a form that the reader takes, where the script's statements are.
pub fn lines_are_of_the_stage()
    ensures { (s : Script) (kind : Kind) (block n : ℕ) (x : Statement) → IsOfStage s
        → slice_get (frame_lines s kind block) n ≡ Some (says x) → is_of_stage x ≡ true }
{}

/// A script whose statements are all of the forms that the reader takes has nothing registered after any list of
/// entries, and none of its statements posts to anybody.
pub fn nothing_is_registered()
    ensures registrations { (s : Script) (es : List Entry) → IsOfStage s → (After s es).parts.registrations ≡ [] }
    ensures posts { (p : Parts) (x : Statement) (used : List (Option ℕ)) → is_of_stage x ≡ true
        → posts_of p x used ≡ [] }
{}

/// A statement that acts on bodies alone does what its deed says, and no more.
pub fn plain_deals()
    ensures { (s : Script) (t : ℕ) (st : State) (x : Statement) (used : List (Option ℕ)) → ActsOnBodies x
        → DealsPlainly s t st x used }
{}

/// A journal with one entry more: the state after it, where the pointer of the serial order stands, and when it is
/// legal and in the serial order.
pub fn journals_grow()
    ensures { (s : Script) (es : List Entry) (e : Entry) → GrowsBy s es e }
{}

/// Each entry makes one object at most and finalises one at most, and each collection has one member more at most.
pub fn entries_add_little()
    ensures { (s : Script) (es : List Entry) (e : Entry) → AddsFew s es e }
{}

/// After so many entries no more objects were made, no more were finalised, and no collection has more members; so
/// each may have one more, as long as a run may be.
pub fn sizes_stay_small()
    ensures { (s : Script) (es : List Entry) → AreFew s es }
{}

/// There is one stand for each thread, and one record of flags, after every list of entries; and the pointer of the
/// serial order stays within the threads.
pub fn numbers_of_lists()
    ensures { (s : Script) (es : List Entry) → NumbersOfLists s es }
{}

/// What the serial run finds after every list of entries. Without a stall a legal journal of an owned script is whole
/// if the lead has nothing more to do, and the lead is busy exactly if the pointer picks a thread; it ticks and stalls
/// where it may.
pub fn lead_ends_the_run()
    ensures { (s : Script) (es : List Entry) → LeadTells s es }
{}

/// A legal journal makes at most 65,536 objects, and finalises only such, each once at most.
pub fn few_objects_are_made()
    ensures { (s : Script) (es : List Entry) → IsLegal s es → FewOfLegal s es }
{}

/// After so many entries an object has at most 1,025 times as many changes and references, of a legal journal of every
/// script, and of every list of entries of an owned script.
pub fn references_stay_few()
    ensures legal { (s : Script) (es : List Entry) (o : ℕ) → IsLegal s es → FewReferences s es o }
    ensures owned { (s : Script) (es : List Entry) (o : ℕ) → Owned s → FewReferences s es o }
{}

/// The objects to which an entry adds references are a list, which is not long.
pub fn gains_are_listed()
    ensures { (s : Script) (es : List Entry) (e : Entry) → GainsAreListed s es e }
{}

/// After every list of entries of every script a place of a parcel has one reference at most.
pub fn parcels_have_one()
    ensures { (s : Script) (es : List Entry) (u k : ℕ) → HasOneAtMost (parcel u k) (After s es).edges }
{}
