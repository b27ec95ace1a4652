//! The first fault of a block's statements, by running counts.
ghost use Rattle.std.specs.Prelude.{◌≡◌, ◌+◌, ◌<◌, ◌++◌, List, ℕ, None, length, map, slice_index};
ghost use Rattle.cf_syntax.specs.Counting.{Counted, HasRoom};
ghost use Rattle.cf_syntax.specs.Mentions.{ownership_of};
ghost use Rattle.cf_syntax.specs.BlockLines.{BlockLine, says};
ghost use Rattle.cf_owncheck.specs.Uses.{IsUseOf, used_fault};
ghost use Rattle.cf_syntax.specs.Owned.{unbound_fault, unowned_fault, rebound_fault, thread_fault, or_else, place_fault, line_fault, statements_fault};

use crate::uses::{UseOf, use_of};
use cf_ids::{ThreadId, VarId};
use cf_syntax::{Counts, Mention, Ownership, Reason, Refusal, Script, Statement};

/// The fault of a variable that is not bound.
pub(crate) fn unbound_fault(counts: &Counts, variable: VarId) -> Option<Reason>
    ensures { (earlier : List BlockLine) → Counted counts.now earlier → result ≡ unbound_fault earlier variable }
{
    if counts.bound(variable) == 0 {
        Some(Reason::Undefined)
    } else {
        None
    }
}

/// The fault of a variable that owns no reference.
pub(crate) fn unowned_fault(counts: &Counts, variable: VarId) -> Option<Reason>
    ensures fault { (earlier : List BlockLine) → Counted counts.now earlier → result ≡ unowned_fault earlier variable }
    ensures owns { result ≡ None → slice_index counts.now.released variable < slice_index counts.now.given variable }
{
    if counts.released(variable) < counts.given(variable) {
        None
    } else {
        Some(Reason::Unowned)
    }
}

/// The fault of a variable that is bound, where one is to be bound.
pub(crate) fn rebound_fault(counts: &Counts, variable: VarId) -> Option<Reason>
    ensures { (earlier : List BlockLine) → Counted counts.now earlier → result ≡ rebound_fault earlier variable }
{
    if counts.bound(variable) == 0 {
        None
    } else {
        Some(Reason::Redefined)
    }
}

/// The fault of a variable that is used.
fn use_fault(counts: &Counts, variable: VarId) -> Option<Reason>
    ensures { (earlier : List BlockLine) → Counted counts.now earlier → result ≡ used_fault earlier variable }
{
    match unbound_fault(counts, variable) {
        None => unowned_fault(counts, variable),
        fault => fault,
    }
}

/// The fault of a thread that is named.
fn thread_fault(script: &Script, thread: Option<ThreadId>) -> Option<Reason>
    ensures { result ≡ thread_fault script.now thread }
{
    match thread {
        None => Some(Reason::Undefined),
        Some(thread) if usize::from(thread.0) < script.threads() => None,
        Some(_) => Some(Reason::Undefined),
    }
}

/// The fault of a word that may name something.
fn place_fault(script: &Script, counts: &Counts, mention: &Option<Mention>) -> Option<Reason>
    ensures { (earlier : List BlockLine) → Counted counts.now earlier → result ≡ place_fault script.now earlier mention.now }
{
    match mention {
        None => None,
        Some(Mention::Binds(variable)) => rebound_fault(counts, *variable),
        Some(Mention::Uses(variable)) => use_fault(counts, *variable),
        Some(Mention::Class(Some(_))) => None,
        Some(Mention::Class(None)) => Some(Reason::Undefined),
        Some(Mention::Handler(handler)) => match script.handler(*handler) {
            None => Some(Reason::Undefined),
            Some(_) => None,
        },
        Some(Mention::Thread(thread)) => thread_fault(script, *thread),
        Some(Mention::Unknown) => Some(Reason::Undefined),
    }
}

/// The fault of a statement's leftmost word that has one, by the words that it names.
fn mentions_fault(script: &Script, counts: &Counts, statement: &Statement) -> Option<Reason>
    ensures { (earlier : List BlockLine) → Counted counts.now earlier → result ≡ line_fault script.now earlier (says statement.now) }
{
    let [first, second, third] = statement.mentions();
    if let Some(reason) = place_fault(script, counts, &first) {
        return Some(reason);
    }
    if let Some(reason) = place_fault(script, counts, &second) {
        return Some(reason);
    }
    place_fault(script, counts, &third)
}

/// The fault of a statement's one variable.
fn one_fault(counts: &Counts, first: VarId) -> Option<Reason>
    ensures { (earlier : List BlockLine) → Counted counts.now earlier → result ≡ or_else (used_fault earlier first) None }
{
    if let Some(reason) = use_fault(counts, first) {
        return Some(reason);
    }
    None
}

/// The fault of the first of two variables that has one.
fn two_fault(counts: &Counts, first: VarId, second: VarId) -> Option<Reason>
    ensures { (earlier : List BlockLine) → Counted counts.now earlier
        → result ≡ or_else (used_fault earlier first) (or_else (used_fault earlier second) None) }
{
    if let Some(reason) = use_fault(counts, first) {
        return Some(reason);
    }
    one_fault(counts, second)
}

/// The fault of the first of three variables that has one.
fn three_fault(counts: &Counts, first: VarId, second: VarId, third: VarId) -> Option<Reason>
    ensures { (earlier : List BlockLine) → Counted counts.now earlier
        → result ≡ or_else (used_fault earlier first)
        (or_else (used_fault earlier second) (or_else (used_fault earlier third) None)) }
{
    if let Some(reason) = use_fault(counts, first) {
        return Some(reason);
    }
    two_fault(counts, second, third)
}

/// The fault of a statement's leftmost word that has one.
#[inline(always)]
fn statement_fault(
    script: &Script,
    counts: &Counts,
    uses: &UseOf,
    statement: &Statement,
) -> Option<Reason>
    requires { IsUseOf uses.now statement.now }
    ensures { (earlier : List BlockLine) → Counted counts.now earlier → result ≡ line_fault script.now earlier (says statement.now) }
{
    match uses {
        UseOf::Retains(variable) => one_fault(counts, *variable),
        UseOf::Releases(variable) => one_fault(counts, *variable),
        UseOf::One(variable) => one_fault(counts, *variable),
        UseOf::Two(first, second) => two_fault(counts, *first, *second),
        UseOf::Three(first, second, third) => three_fault(counts, *first, *second, *third),
        UseOf::Other => mentions_fault(script, counts, statement),
    }
}

/// What a statement does to a variable's count.
#[inline(always)]
fn ownership(uses: &UseOf, statement: &Statement) -> Ownership
    requires { IsUseOf uses.now statement.now }
    ensures { result ≡ ownership_of statement.now }
{
    match uses {
        UseOf::Retains(variable) => Ownership::Retains(*variable),
        UseOf::Releases(variable) => Ownership::Releases(*variable),
        UseOf::One(_) => Ownership::Keeps,
        UseOf::Two(..) => Ownership::Keeps,
        UseOf::Three(..) => Ownership::Keeps,
        UseOf::Other => statement.ownership(),
    }
}

/// The first fault of statements, each with its line; where there is none, they are counted.
pub(crate) fn statements_fault(
    script: &Script,
    counts: &mut Counts,
    lines: &[u32],
    statements: &[Statement],
) -> Option<Refusal>
    requires { HasRoom counts.old (length statements.now) }
    ensures fault { (earlier : List BlockLine) → Counted counts.old earlier → result ≡ statements_fault script.now earlier lines.now statements.now }
    ensures counted { (earlier : List BlockLine) → Counted counts.old earlier → result ≡ None → Counted counts.new (earlier ++ map says statements.now) }
{
    for (i, statement) in statements.iter().enumerate() {
        let uses = use_of(statement);
        if let Some(reason) = statement_fault(script, counts, &uses, statement) {
            let line = lines.get(i).copied().unwrap_or(0);
            return Some(Refusal { line, reason });
        }
        counts.count(ownership(&uses, statement));
    }
    None
}
