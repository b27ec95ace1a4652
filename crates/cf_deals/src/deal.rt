//! What a statement does that neither binds a variable nor counts its references.
ghost use Rattle.std.specs.Prelude.{◌≡◌, map, IfOk};
ghost use Rattle.cf_graph.specs.Edges.{held_by, held_if};
ghost use Rattle.cf_plain.specs.Views.{item_of};
ghost use Rattle.cf_model.specs.Deals.{answering, entering, leaving, observe_deal, okay, run_deal, signal_deal, skipping, thread_in, wake_flags, wake_parts};
ghost use Rattle.cf_model.specs.State.{Parts as Kept};
ghost use Rattle.cf_references.specs.Views.{holder_of};
ghost use Rattle.cf_deals.specs.Deals.{deal_of};
ghost use Rattle.cf_state.specs.Updates.{updated};
ghost use Rattle.cf_state.specs.Known.{bare};

use cf_ids::{Answer, HandlerId, NameId, ObjId};
use cf_plain::{Change, Item};
use cf_references::{Holder, Reference};
use cf_state::{Flags, Parts, Sleep, Thing, Update, flags_at, is_empty_mode};
use cf_syntax::ThreadWord;
use rl_base::Registration;
use std::alloc::{AllocError as NoMemory, Global};

/// What a statement does that neither binds a variable nor counts its references: its answer, what becomes of the
/// parts, the references that enter bodies and loops, those that leave them for the thread, and the thread whose run it
/// stops.
#[derive(Drop)]
pub struct Deal {
    pub answer: Answer,
    pub update: Update,
    pub enters: Vec<Reference>,
    pub leaves: Vec<Reference>,
    pub stops: Option<usize>,
}

impl Deal {
    /// It answers, and changes nothing.
    pub fn answering(alloc: Global, answer: Answer) -> Deal
        ensures { (p : Kept) → deal_of p result ≡ answering p answer }
    {
        Deal {
            answer,
            update: Update::Nothing,
            enters: Vec::new(alloc),
            leaves: Vec::new(alloc),
            stops: None,
        }
    }

    /// The statement finds nothing to act on.
    pub fn skipping(alloc: Global) -> Deal
        ensures { (p : Kept) → deal_of p result ≡ skipping p }
    {
        Deal::answering(alloc, Answer::Skip)
    }

    /// It answers, and the parts change.
    pub fn updating(alloc: Global, answer: Answer, update: Update) -> Deal
        ensures { (p : Kept) → deal_of p result ≡ answering (updated update p) answer }
    {
        Deal {
            answer,
            update,
            enters: Vec::new(alloc),
            leaves: Vec::new(alloc),
            stops: None,
        }
    }

    /// References enter, and the parts change.
    pub fn entering(alloc: Global, enters: Vec<Reference>, update: Update) -> Deal
        ensures { (p : Kept) → deal_of p result ≡ entering (updated update p) enters.items }
    {
        Deal {
            answer: Answer::Ok,
            update,
            enters,
            leaves: Vec::new(alloc),
            stops: None,
        }
    }

    /// References leave, and the parts change.
    pub fn leaving(alloc: Global, leaves: Vec<Reference>, update: Update) -> Deal
        ensures { (p : Kept) → deal_of p result ≡ leaving (updated update p) leaves.items }
    {
        Deal {
            answer: Answer::Ok,
            update,
            enters: Vec::new(alloc),
            leaves,
            stops: None,
        }
    }
}

/// The thread that a word names.
pub(crate) fn thread_in(thread: usize, word: &ThreadWord) -> Option<usize>
    ensures { result ≡ thread_in thread word.now }
{
    match word {
        ThreadWord::Own => Some(thread),
        ThreadWord::Named(Some(other)) => Some(usize::from(other.0)),
        ThreadWord::Named(None) => None,
    }
}

/// A source is signalled, if it is valid; what is no source is skipped.
pub(crate) fn signal_deal(alloc: Global, number: ObjId, thing: &Thing) -> Deal
    ensures { (p : Kept) → deal_of p result ≡ signal_deal p number thing.now.valid (item_of thing.now.item) }
{
    match &thing.item {
        Item::Source { order, .. } => {
            if thing.valid {
                let item = Item::Source {
                    order: *order,
                    signalled: true,
                };
                let change = Change::Item { valid: true, item };
                Deal::updating(
                    alloc,
                    Answer::Ok,
                    Update::Change {
                        object: number,
                        change,
                    },
                )
            } else {
                Deal::answering(alloc, Answer::Invalid)
            }
        }
        _ => Deal::skipping(alloc),
    }
}

/// The flags of a thread after a wake.
fn woken(flags: &Flags) -> Flags
    ensures { result ≡ wake_flags flags.now }
{
    match flags.sleep {
        Sleep::Awake => Flags {
            is_started: flags.is_started,
            sleep: Sleep::Awake,
            is_woken: true,
        },
        Sleep::Until(_) => Flags {
            is_started: flags.is_started,
            sleep: Sleep::Awake,
            is_woken: flags.is_woken,
        },
    }
}

/// What becomes of the parts as a thread is woken.
pub(crate) fn wake(parts: &Parts, thread: usize) -> Update
    ensures { updated result parts.now ≡ wake_parts parts.now thread }
{
    Update::Flag {
        thread,
        flags: woken(&flags_at(parts.flags.as_slice(), thread)),
    }
}

/// A thread is woken.
pub(crate) fn wake_deal(alloc: Global, parts: &Parts, thread: usize) -> Deal
    ensures { deal_of parts.now result ≡ okay (wake_parts parts.now thread) }
{
    Deal::updating(alloc, Answer::Ok, wake(parts, thread))
}

/// A run of a mode begins, if the mode is not empty; else it ends at once.
pub(crate) fn run_deal(
    alloc: Global,
    parts: &Parts,
    edges: &[Reference],
    thread: usize,
    mode: usize,
) -> Deal
    ensures { deal_of parts.now result ≡ run_deal (bare parts.now edges.now) thread mode }
{
    if is_empty_mode(parts, edges, thread, mode) {
        Deal::answering(alloc, Answer::Number(1))
    } else {
        Deal::answering(alloc, Answer::Entered)
    }
}

/// A registration is added, after those that are there.
pub(crate) fn observe_deal(
    alloc: Global,
    handler: HandlerId,
    name: Option<NameId>,
    observer: ObjId,
    filter: Option<ObjId>,
) -> Deal
    ensures { (p : Kept) → deal_of p result ≡ observe_deal p handler name observer filter }
{
    Deal::updating(
        alloc,
        Answer::Ok,
        Update::Observe(Registration {
            observer,
            handler,
            name,
            filter,
        }),
    )
}

/// The reference of a holder to an object, if there is one.
pub fn held_if(
    alloc: Global,
    holder: &Holder,
    object: &Option<ObjId>,
) -> Result<Vec<Reference>, NoMemory>
    ensures { IfOk result (λ v. v.items ≡ held_if (holder_of holder.now) object.now) }
{
    match *object {
        Some(object) => Ok(vec![in alloc; Reference::new(*holder, object)]?),
        None => Ok(Vec::new(alloc)),
    }
}

/// References of a holder to objects.
pub fn held_by_all(
    alloc: Global,
    holder: &Holder,
    objects: &[ObjId],
) -> Result<Vec<Reference>, NoMemory>
    ensures { IfOk result (λ v. v.items ≡ map (held_by (holder_of holder.now)) objects.now) }
{
    let mut references = Vec::new(alloc);
    for object in objects {
        references.push(Reference::new(*holder, *object))?;
    }
    Ok(references)
}
