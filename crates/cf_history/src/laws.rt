//! Laws of journals, which hold of every script.
ghost use Rattle.std.specs.Prelude.{List, ℕ};
ghost use Rattle.cf_syntax.specs.declared.script.Script.{Script};
ghost use Rattle.cf_model.specs.declared.entry.Entry.{Entry};
ghost use Rattle.cf_model.specs.Journals.{IsLegal};
ghost use Rattle.cf_history.specs.Callouts.{CalloutsFit};
ghost use Rattle.cf_history.specs.OpenRuns.{TurnsFit};
ghost use Rattle.cf_history.specs.Laws.{DatesAgree, IsOnlySerial, IsOnlyTimed, LivesAgree, ReceiversAgree, SignalsAgree, ValidityAgrees};

/// After every legal journal of every script a source is signalled in the state exactly if some signal of it was
/// accepted and no call of it stands after that.
pub fn signals_are_told()
    ensures { (s : Script) (es : List Entry) → IsLegal s es → SignalsAgree s es }
{}

/// After every legal journal of every script an item is valid in the state exactly if it was made, and no `invalidate`
/// or `spend` of it was accepted.
pub fn validity_is_told()
    ensures { (s : Script) (es : List Entry) → IsLegal s es → ValidityAgrees s es }
{}

/// After every legal journal of every script an object was made in the state exactly if an entry binds it, and it is
/// live exactly if besides none finalised it.
pub fn lives_are_told()
    ensures { (s : Script) (es : List Entry) → IsLegal s es → LivesAgree s es }
{}

/// After every legal journal of every script the time of the state is that of the last tick, a timer's date is its
/// first one or the one that its interval gives after its last call, and it is due in the state exactly if it is by
/// these.
pub fn dates_are_told()
    ensures { (s : Script) (es : List Entry) → IsLegal s es → DatesAgree s es }
{}

/// After every legal journal of every script the receivers of a notice in the state are the registrations that the
/// entries made and did not forget, in order, whose name and filter are that name and object or any, and whose
/// observer and filter object are live.
pub fn receivers_are_told()
    ensures { (s : Script) (es : List Entry) → IsLegal s es → ReceiversAgree s es }
{}

/// Two journals of a script in the serial order that are as long, and whose ticks go to the same times, are equal.
pub fn serial_journals_are_determined()
    ensures { (s : Script) (es fs : List Entry) → IsOnlySerial s es fs }
{}

/// A clock that tells a list of times fixes each journal in the serial order by its length.
pub fn timed_journals_are_determined()
    ensures { (s : Script) (times : List ℕ) (es fs : List Entry) → IsOnlyTimed s times es fs }
{}

/// The entries of each run in every legal journal of every script follow the turn's table: a phase is the next one
/// after the last, by what the entries say of the run and by whether its mode is empty.
pub fn turns_fit()
    ensures { (s : Script) (es : List Entry) → IsLegal s es → TurnsFit s es }
{}

/// Every legal journal of every script fits: at each call of a source the innermost run of the thread is of a mode
/// that holds it, it is valid, and it is signalled, as the entries say.
pub fn callouts_fit()
    ensures { (s : Script) (es : List Entry) → IsLegal s es → CalloutsFit s es }
{}
