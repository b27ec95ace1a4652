//! The references that the places of the loops have.
ghost use Rattle.std.specs.Prelude.{◌≡◌, ◌≤◌, ◌++◌, map, length, OnOk};
ghost use Rattle.cf_ids.specs.declared.limits.TheConstants.{THREADS};
ghost use Rattle.cf_graph.specs.Holders.{owner_of};
ghost use Rattle.cf_model.specs.Deals.{holder_at};
ghost use Rattle.cf_loops.specs.Following.{InStates};
ghost use Rattle.cf_loops.specs.Edging.{AddsLoops, edge_from, loop_edges};

use crate::loops::Loops;
use cf_graph::{Edge, Owner};
use cf_ids::{Item, MODES, ModeId, ThreadId};
use rl_base::Place;
use rl_modes::Modes;
use std::alloc::AllocError as NoMemory;

impl Loops {
    /// Appends an edge for each item in each mode and in the common items of all loops. It looks at each mode of each
    /// loop.
    pub fn add_edges(&self, edges: &mut Vec<Edge>) -> Result<(), NoMemory>
        requires { length self.now ≤ THREADS }
        ensures { OnOk result (InStates self.now (λ s st. AddsLoops st.edges edges.old.items edges.new.items)) }
    {
        for t in 0..self.loops.len() {
            add_loop(edges, ThreadId(t as u8), &self.loops[t])?;
        }
        Ok(())
    }
}

/// Appends an edge for each item in each mode and in the common items of a loop.
fn add_loop(edges: &mut Vec<Edge>, t: ThreadId, modes: &Modes) -> Result<(), NoMemory>
    ensures { OnOk result (edges.new.items ≡ edges.old.items ++ loop_edges t modes.now.held) }
{
    add_items(edges, t, &Place::Common, modes.common_items())?;
    for m in 0..MODES {
        let mode = ModeId(m as u16);
        add_items(edges, t, &Place::Mode(mode), modes.items(mode))?;
    }
    Ok(())
}

/// Appends an edge from a place of a thread's loop to each of some items.
fn add_items(
    edges: &mut Vec<Edge>,
    t: ThreadId,
    place: &Place,
    items: &[Item],
) -> Result<(), NoMemory>
    ensures { OnOk result (edges.new.items ≡ edges.old.items ++ map (edge_from t place.now) items.now) }
{
    for item in items {
        edges.push(Edge {
            owner: owner_of(t, place),
            object: item.id,
        })?;
    }
    Ok(())
}

/// A place of a thread's loop, as the owner of an edge.
fn owner_of(t: ThreadId, place: &Place) -> Owner
    ensures { result ≡ owner_of (holder_at t place.now) }
{
    match place {
        Place::Common => Owner::Common(t),
        Place::Mode(mode) => Owner::Mode(t, *mode),
    }
}
