//! Who holds a reference.
ghost use Rattle.std.specs.Prelude.{◌≡◌};
ghost use Rattle.cf_graph.specs.Holders.{code_of, same_holder};
ghost use Rattle.cf_graph.specs.Owners.{is_thread};
ghost use Rattle.cf_graph.specs.Holders.{owner_of};
ghost use Rattle.cf_references.specs.Views.{holder_of};

use std::marker::Model;

/// Who holds a reference, by numbers.
#[derive(Clone, Copy)]
pub enum Holder {
    /// A variable of a frame, by how many frames are below it.
    Variable {
        thread: usize,
        depth: usize,
        variable: usize,
    },
    /// The callout of a frame.
    Callout {
        thread: usize,
        depth: usize,
    },
    /// A thread that was given out a reference.
    Owed {
        thread: usize,
    },
    /// A place of a thread's parcel.
    Parcel {
        thread: usize,
        place: usize,
    },
    /// A slot of a body.
    Slot {
        body: usize,
    },
    /// A mode of a thread's run loop.
    InMode {
        thread: usize,
        mode: usize,
    },
    /// The common items of a thread's run loop.
    InCommon {
        thread: usize,
    },
}

/// A holder as numbers.
#[derive(Drop)]
struct Code {
    kind: u8,
    first: usize,
    second: usize,
    third: usize,
}

impl Model for Code {
    ghost use Rattle.cf_graph.specs.Holders.{Code as Coded};

    ghost Value = { Coded };

    ghost view = { λ c. record { kind = c.kind; first = c.first; second = c.second; third = c.third } };
}

/// The numbers of a holder.
fn coded(holder: &Holder) -> Code
    ensures { result ≡ code_of (holder_of holder.now) }
{
    let (kind, first, second, third) = match holder {
        Holder::Variable {
            thread,
            depth,
            variable,
        } => (0, *thread, *depth, *variable),
        Holder::Callout { thread, depth } => (1, *thread, *depth, 0),
        Holder::Owed { thread } => (2, *thread, 0, 0),
        Holder::Parcel { thread, place } => (3, *thread, *place, 0),
        Holder::Slot { body } => (4, *body, 0, 0),
        Holder::InMode { thread, mode } => (5, *thread, *mode, 0),
        Holder::InCommon { thread } => (6, *thread, 0, 0),
    };
    Code {
        kind,
        first,
        second,
        third,
    }
}

/// Whether two holders are the same one.
pub(crate) fn is_same(a: &Holder, b: &Holder) -> bool
    ensures { result ≡ same_holder (holder_of a.now) (holder_of b.now) }
{
    let a = coded(a);
    let b = coded(b);
    a.kind == b.kind && a.first == b.first && a.second == b.second && a.third == b.third
}

/// Whether the holder is of a thread itself.
pub(crate) fn is_of_thread(thread: usize, holder: &Holder) -> bool
    ensures { result ≡ is_thread thread (owner_of (holder_of holder.now)) }
{
    match holder {
        Holder::Variable { thread: own, .. }
        | Holder::Callout { thread: own, .. }
        | Holder::Owed { thread: own } => thread == *own,
        _ => false,
    }
}
