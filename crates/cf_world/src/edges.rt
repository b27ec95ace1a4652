//! The references that there are.
ghost use Rattle.std.specs.Prelude.{◌≡◌, ℕ, ◌<◌, ◌≤◌, ◌++◌, Bool, count_by, length, map, IfOk, OnOk};
ghost use Rattle.cf_ids.specs.declared.limits.TheConstants.{OBJECTS};
ghost use Rattle.cf_syntax.specs.BlockLines.{thread_block, uses_in};
ghost use Rattle.cf_graph.specs.declared.edge.Edge.{Edge};
ghost use Rattle.cf_graph.specs.Edges.{edges_of};
ghost use Rattle.cf_next.specs.Held.{HasVariables, below};
ghost use Rattle.cf_next.specs.Standing.{Standing};
ghost use Rattle.cf_world.specs.Grounds.{HasPlaces};
ghost use Rattle.cf_world.specs.Referring.{AddsGround, AllHaveVariables, parcel_references, place_references, slot_references, stand_references, stands_of, thread_edge, thread_references};
ghost use Rattle.cf_world.specs.Worlds.{edges_in};

use crate::begun::Begun;
use crate::ground::Ground;
use crate::parcels::{Parcels, places};
use cf_graph::{Edge, Owner};
use cf_ids::{ObjId, ThreadId};
use cf_next::Frames;
use cf_store::Store;
use cf_syntax::Script;
use std::alloc::{AllocError as NoMemory, Global};

impl Begun {
    /// The references, each as often as there are, in any order.
    pub fn edges(&self, alloc: Global) -> Result<Vec<Edge>, NoMemory>
        ensures { IfOk result (λ es. (p : Edge → Bool)
            → count_by p es.items ≡ count_by p (edges_of (edges_in self.now))) }
    {
        let mut edges = Vec::new(alloc);
        add_threads(
            alloc,
            &mut edges,
            self.ground.script(),
            self.frames.as_slice(),
        )?;
        add_ground(&mut edges, &self.ground)?;
        Ok(edges)
    }
}

/// Adds the edges of parcels, of slots and of places of loops.
fn add_ground(edges: &mut Vec<Edge>, ground: &Ground) -> Result<(), NoMemory>
    ensures { OnOk result (AddsGround ground.now edges.old.items edges.new.items) }
{
    add_parcels(edges, ground.script(), &ground.parcels)?;
    add_bodies(edges, &ground.store)?;
    ground.loops.add_edges(edges)
}

/// Adds an edge from a thread to each of some objects.
fn add_held(edges: &mut Vec<Edge>, t: ThreadId, objects: &[ObjId]) -> Result<(), NoMemory>
    ensures { OnOk result (edges.new.items ≡ edges.old.items ++ map (thread_edge t) objects.now) }
{
    for object in objects {
        edges.push(Edge {
            owner: Owner::Thread(t),
            object: *object,
        })?;
    }
    Ok(())
}

/// Adds the edges of a thread: of its frames, and of what it owes.
fn add_thread(
    alloc: Global,
    edges: &mut Vec<Edge>,
    script: &Script,
    t: ThreadId,
    frames: &Frames,
) -> Result<(), NoMemory>
    requires { script.now.thread_count ≤ 64 }
    ensures items { OnOk result
        (edges.new.items ≡ edges.old.items ++ edges_of (thread_references script.now t frames.now.stand)) }
    ensures variables { OnOk result (HasVariables frames.now.stand.frames) }
{
    let mut objects = Vec::new(alloc);
    frames.held(script, &mut objects)?;
    add_held(edges, t, objects.as_slice())
}

/// Adds the edges of all threads.
fn add_threads(
    alloc: Global,
    edges: &mut Vec<Edge>,
    script: &Script,
    frames: &[Frames],
) -> Result<(), NoMemory>
    requires threads { script.now.thread_count ≤ 64 }
    requires few { length frames.now ≤ 64 }
    ensures items { OnOk result (edges.new.items ≡ edges.old.items
        ++ edges_of (below (stand_references script.now (stands_of frames.now)) (length frames.now))) }
    ensures variables { OnOk result (AllHaveVariables (stands_of frames.now) (length frames.now)) }
{
    for t in 0..frames.len() {
        add_thread(alloc, edges, script, ThreadId(t as u8), &frames[t])?;
    }
    Ok(())
}

/// Adds the edge of a place of a parcel, where it has an object.
fn add_place(
    edges: &mut Vec<Edge>,
    parcels: &Parcels,
    t: ThreadId,
    k: usize,
) -> Result<(), NoMemory>
    ensures { OnOk result (edges.new.items ≡ edges.old.items ++ edges_of (place_references parcels.now t k)) }
{
    if let Some(object) = parcels.at(t, k) {
        edges.push(Edge {
            owner: Owner::Parcel(t),
            object,
        })?;
    }
    Ok(())
}

/// Adds the edges of a parcel of so many places.
fn add_parcel(
    edges: &mut Vec<Edge>,
    parcels: &Parcels,
    t: ThreadId,
    places: usize,
) -> Result<(), NoMemory>
    ensures { OnOk result
        (edges.new.items ≡ edges.old.items ++ edges_of (below (place_references parcels.now t) places)) }
{
    for k in 0..places {
        add_place(edges, parcels, t, k)?;
    }
    Ok(())
}

/// Adds the edges of all parcels.
fn add_parcels(edges: &mut Vec<Edge>, script: &Script, parcels: &Parcels) -> Result<(), NoMemory>
    requires threads { script.now.thread_count ≤ 64 }
    requires places { HasPlaces script.now parcels.now }
    ensures { OnOk result (edges.new.items ≡ edges.old.items
        ++ edges_of (below (parcel_references parcels.now) (length parcels.now))) }
{
    for t in 0..script.threads() {
        add_parcel(edges, parcels, ThreadId(t as u8), places(script, t))?;
    }
    Ok(())
}

/// Adds the edges of the slots that are left to a body.
fn add_body(edges: &mut Vec<Edge>, store: &Store, body: ObjId) -> Result<(), NoMemory>
    ensures { OnOk result (edges.new.items ≡ edges.old.items ++ edges_of (slot_references store.now.bodies body)) }
{
    let mut place = store.given_up(body) as usize;
    while let Some(object) = store.slot(body, place) {
        edges.push(Edge {
            owner: Owner::Slot(body),
            object,
        })?;
        place += 1;
    }
    Ok(())
}

/// Adds the edges of the slots of all bodies.
fn add_bodies(edges: &mut Vec<Edge>, store: &Store) -> Result<(), NoMemory>
    requires { length store.now.bodies ≤ OBJECTS }
    ensures { OnOk result (edges.new.items ≡ edges.old.items
        ++ edges_of (below (slot_references store.now.bodies) (length store.now.bodies))) }
{
    for body in 0..store.count() {
        add_body(edges, store, ObjId(body as u32))?;
    }
    Ok(())
}
