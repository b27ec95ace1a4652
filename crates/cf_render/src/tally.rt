//! How many references lead to each object.
ghost use Rattle.std.specs.Prelude.{◌≡◌, ◌+◌, ◌<◌, ◌^◌, ℕ, length, slice_index_or, IfOk};
ghost use Rattle.cf_render.specs.Ends.{CanTally, counted_at, nothing, with_edge, with_tally};

use cf_graph::{Edge, Owner};
use std::alloc::{AllocError as NoMemory, Global};

/// How many references lead to an object: those that own it, from threads and parcels, and the others.
#[derive(Clone, Copy)]
pub(crate) struct Tally {
    /// From threads and parcels.
    pub(crate) owners: usize,
    /// From elsewhere.
    pub(crate) slots: usize,
}

/// One reference more.
fn count(tally: Tally, edge: &Edge) -> Tally
    requires owners { tally.owners + 1 < 2 ^ 64 }
    requires slots { tally.slots + 1 < 2 ^ 64 }
    ensures { result ≡ with_edge tally edge.now }
{
    match edge.owner {
        Owner::Thread(_) | Owner::Parcel(_) => Tally {
            owners: tally.owners + 1,
            slots: tally.slots,
        },
        Owner::Slot(_) | Owner::Mode(_, _) | Owner::Common(_) => Tally {
            owners: tally.owners,
            slots: tally.slots + 1,
        },
    }
}

/// One reference more, where its object was made.
fn add(tallies: &mut Vec<Tally>, edge: &Edge)
    requires { CanTally tallies.old.items edge.now }
    ensures { tallies.new.items ≡ with_tally tallies.old.items edge.now }
{
    let o = edge.object.0 as usize;
    if o < tallies.len() {
        tallies[o] = count(tallies[o], edge);
    }
}

/// How many of the edges lead to each object, where so many were made.
pub(crate) fn tallied(alloc: Global, made: usize, edges: &[Edge]) -> Result<Vec<Tally>, NoMemory>
    ensures size { IfOk result (λ ts. length ts.items ≡ made) }
    ensures at { IfOk result (λ ts. (o : ℕ) → o < made → slice_index_or ts.items o nothing ≡ counted_at o edges.now) }
{
    let none = Tally {
        owners: 0,
        slots: 0,
    };
    let mut tallies = vec![in alloc; none; made]?;
    for edge in edges {
        add(&mut tallies, edge);
    }
    Ok(tallies)
}
