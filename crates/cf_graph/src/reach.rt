//! Which objects a path leads to.
ghost use Rattle.std.specs.Prelude.{◌≡◌, ℕ, ◌+◌, ◌<◌, ◌↔◌, [], ◌∷◌, ◌++◌, true, false, length, slice_set, slice_index, slice_index_or, if◌then◌else◌, Contains, IfOk, OnOk};
ghost use Rattle.std.specs.List.Sorted.{IsStrictlyIncreasing};
ghost use Rattle.cf_graph.specs.Paths.{Reaches};
ghost use Rattle.cf_graph.specs.Walks.{source, sources, targets, IsLinked, Grows, Marked};

use crate::NoMemory;
use crate::edge::{Edge, Owner};
use cf_ids::{OBJECT_NUMBERS, ObjId};
use std::alloc::Global;

/// Threads and parcels share the first place, modes and common items the second.
const PLACES: usize = OBJECT_NUMBERS + 2;

/// For each place its latest edge, and for each edge the one before it from the same place: a
/// number one higher than the edge's, or 0.
#[derive(Drop)]
struct Links {
    latest: Vec<usize>,
    before: Vec<usize>,
}

/// The places found so far, and those of them whose edges are still to be followed.
#[derive(Drop)]
struct Walk {
    marks: Vec<bool>,
    stack: Vec<usize>,
}

/// The objects to which a path leads from a thread or a parcel, by rising number. It takes time
/// linear in the edges, beside a table of one place for each number that an object can have. `NoMemory` comes for want
/// of memory alone.
pub fn reached(alloc: Global, edges: &[Edge]) -> Result<Vec<ObjId>, NoMemory>
    ensures rising { IfOk result (λ v. IsStrictlyIncreasing v.items) }
    ensures reached { IfOk result (λ v. (o : ℕ) → Contains v.items o ↔ Reaches edges.now o) }
{
    let marks = mark_reached(alloc, edges)?;
    marked_objects(alloc, &marks)
}

// The places that a walk from the first place reaches.
fn mark_reached(alloc: Global, edges: &[Edge]) -> Result<Vec<bool>, NoMemory>
    ensures places { IfOk result (λ v. length v.items ≡ 66562) }
    ensures found { IfOk result (λ v. (o : ℕ) → Marked v.items (o + 2) ↔ Reaches edges.now o) }
{
    let links = link_edges(alloc, edges)?;
    let mut walk = Walk {
        marks: no_marks(alloc, PLACES)?,
        stack: Vec::new(alloc),
    };
    walk.mark(0)?;
    while let Some(place) = walk.stack.pop() {
        walk.follow(edges, &links, place)?;
    }
    Ok(walk.marks)
}

fn link_edges(alloc: Global, edges: &[Edge]) -> Result<Links, NoMemory>
    ensures links { IfOk result (λ l.
        IsLinked (sources edges.now) (length edges.now) l.latest.items l.before.items) }
{
    let mut latest = no_links(alloc, PLACES)?;
    let mut before = Vec::new(alloc);
    for (i, edge) in edges.iter().enumerate() {
        let from = place_of(&edge.owner);
        before.push(latest[from])?;
        latest[from] = i + 1;
    }
    Ok(Links { latest, before })
}

fn no_links(alloc: Global, places: usize) -> Result<Vec<usize>, NoMemory>
    ensures places { IfOk result (λ v. length v.items ≡ places) }
    ensures empty { IfOk result (λ v. (p : ℕ) → slice_index v.items p ≡ 0) }
{
    vec![in alloc; 0; places]
}

fn no_marks(alloc: Global, places: usize) -> Result<Vec<bool>, NoMemory>
    ensures places { IfOk result (λ v. length v.items ≡ places) }
    ensures empty { IfOk result (λ v. (p : ℕ) → slice_index_or v.items p false ≡ false) }
{
    vec![in alloc; false; places]
}

impl Walk {
    // Marks where the edges of a place lead, and puts what was not marked on the stack.
    fn follow(&mut self, edges: &[Edge], links: &Links, place: usize) -> Result<(), NoMemory>
        requires places { place < 66562 }
        requires linked { IsLinked (sources edges.now) (length edges.now)
            links.now.latest.items links.now.before.items }
        requires marks { length self.old.marks.items ≡ 66562 }
        ensures grows { OnOk result
            (Grows (sources edges.now) (targets edges.now) place 0
            self.old.marks.items self.new.marks.items
            self.old.stack.items self.new.stack.items) }
    {
        let mut next = links.latest[place];
        while next > 0 {
            let to = place_of_object(edges[next - 1].object);
            self.mark(to)?;
            next = links.before[next - 1];
        }
        Ok(())
    }

    fn mark(&mut self, place: usize) -> Result<(), NoMemory>
        requires places { place < length self.old.marks.items }
        ensures marks { OnOk result (self.new.marks.items ≡ slice_set self.old.marks.items place true) }
        ensures stack { OnOk result
            (self.new.stack.items ≡
            (if slice_index_or self.old.marks.items place false
            then self.old.stack.items
            else self.old.stack.items ++ place ∷ [])) }
    {
        if !self.marks[place] {
            self.marks[place] = true;
            self.stack.push(place)?;
        }
        Ok(())
    }
}

fn place_of(owner: &Owner) -> usize
    ensures place { result ≡ source owner.now }
    ensures within { result < 66562 }
{
    match owner {
        Owner::Thread(_) | Owner::Parcel(_) => 0,
        Owner::Slot(body) => place_of_object(*body),
        Owner::Mode(_, _) | Owner::Common(_) => 1,
    }
}

fn place_of_object(o: ObjId) -> usize
    ensures place { result ≡ o + 2 }
    ensures within { result < 66562 }
{
    o.0 as usize + 2
}

// The objects whose places are marked.
fn marked_objects(alloc: Global, marks: &[bool]) -> Result<Vec<ObjId>, NoMemory>
    requires places { length marks.now ≡ 66562 }
    ensures rising { IfOk result (λ v. IsStrictlyIncreasing v.items) }
    ensures chosen { IfOk result (λ v. (o : ℕ) → Contains v.items o ↔ Marked marks.now (o + 2)) }
{
    let mut objects = Vec::new(alloc);
    for o in 0..OBJECT_NUMBERS as u32 {
        if marks[o as usize + 2] {
            objects.push(ObjId(o))?;
        }
    }
    Ok(objects)
}
