//! What the loops hold, as the state has it.
ghost use Rattle.std.specs.Prelude.{◌≡◌, ◌<◌, ◌≤◌, ◌+◌, ◌++◌, length, map, replicate, slice_get, vec_len, vec_capacity};
ghost use Rattle.cf_ids.specs.declared.limits.TheConstants.{THREADS};
ghost use Rattle.rl_modes.specs.Loops.{holds_at, items_at};
ghost use Rattle.rl_base.specs.declared.places.Place.TheVariants.{Common};
ghost use Rattle.cf_graph.specs.Holders.{in_mode};
ghost use Rattle.cf_graph.specs.Edges.{has};
ghost use Rattle.cf_model.specs.State.{is_common};
ghost use Rattle.cf_model.specs.Things.{is_empty_mode, items_in};
ghost use Rattle.cf_model.specs.Deals.{common_deal, common_items, drop_deal, every_place, holder_at, is_elsewhere, leaving, loop_places, places_added};
ghost use Rattle.cf_model.specs.Own.{present_of};
ghost use Rattle.cf_loops.specs.Following.{InStates, loop_at};

use crate::counts::{count_added, count_dropped, count_places, holds, is_held, push_gained};
use crate::loops::Loops;
use cf_ids::{Item, ModeId, ObjId, ThreadId};
use rl_base::Place;

impl Loops {
    /// Whether a mode of a thread's loop holds an item.
    pub fn holds(&self, t: ThreadId, m: ModeId, i: ObjId) -> bool
        ensures { InStates self.now (λ s st. result ≡ has (in_mode t m) i st.edges) }
    {
        match self.of(t) {
            Some(modes) => modes.holds(m, i),
            None => false,
        }
    }

    /// Whether a place of a thread's loop holds an item.
    pub fn has(&self, t: ThreadId, place: &Place, i: ObjId) -> bool
        ensures here { result ≡ holds_at (loop_at t self.now).held i place.now }
        ensures known { InStates self.now (λ s st. result ≡ has (holder_at t place.now) i st.edges) }
    {
        match self.of(t) {
            Some(modes) => holds(modes, place, i),
            None => false,
        }
    }

    /// Whether a mode of a thread's loop holds no source and no timer. It takes constant time.
    pub fn is_empty(&self, t: ThreadId, m: ModeId) -> bool
        ensures { InStates self.now (λ s st. result ≡ is_empty_mode st t m) }
    {
        match self.of(t) {
            Some(modes) => modes.is_empty(m),
            None => true,
        }
    }

    /// The items of a mode of a thread's loop, by number.
    pub fn items(&self, t: ThreadId, m: ModeId) -> &[Item]
        ensures { InStates self.now (λ s st. map (λ i. i.id) result.now ≡ items_in st t m) }
    {
        match self.of(t) {
            Some(modes) => modes.items(m),
            None => &[],
        }
    }

    /// The common items of a thread's loop, by number.
    pub fn common_items(&self, t: ThreadId) -> &[Item]
        ensures here { result.now ≡ items_at Common (loop_at t self.now).held }
        ensures known { InStates self.now (λ s st. map (λ i. i.id) result.now ≡ common_items st t) }
    {
        match self.of(t) {
            Some(modes) => modes.common_items(),
            None => &[],
        }
    }

    /// Whether a mode is a common mode of a thread's loop.
    pub fn is_common(&self, t: ThreadId, m: ModeId) -> bool
        ensures { InStates self.now (λ s st. t < s.thread_count → m < length s.modes
            → result ≡ is_common t st.parts.commons m) }
    {
        match self.of(t) {
            Some(modes) => modes.is_common(m),
            None => false,
        }
    }

    /// The `k`-th place of a thread's loop that holds an item, counted from 0: the common items first, then the modes
    /// by number.
    pub fn place(&self, t: ThreadId, i: ObjId, k: usize) -> Option<Place>
        ensures { InStates self.now (λ s st. result ≡ slice_get (loop_places s t i st.edges) k) }
    {
        match self.of(t) {
            Some(modes) => modes.place(i, k),
            None => None,
        }
    }

    /// How many places of a thread's loop hold an item. It takes time that grows with them.
    pub fn places(&self, t: ThreadId, i: ObjId) -> usize
        ensures { InStates self.now (λ s st. result ≡ length (loop_places s t i st.edges)) }
    {
        match self.of(t) {
            Some(modes) => count_places(modes, i),
            None => 0,
        }
    }

    /// Whether the loop of another thread holds an item. It looks once at each loop.
    pub fn is_elsewhere(&self, t: ThreadId, i: ObjId) -> bool
        ensures { InStates self.now (λ s st. result ≡ is_elsewhere s t i st.edges) }
    {
        for w in 0..self.loops.len() {
            if w != t.0 as usize && is_held(&self.loops[w], i) {
                return true;
            }
        }
        false
    }

    /// How many references an item gets which is added to a place of a thread's loop. It takes time that grows with the
    /// places of that loop that hold the item.
    pub fn added(&self, t: ThreadId, place: &Place, i: ObjId) -> usize
        ensures { InStates self.now (λ s st. t < s.thread_count
            → result ≡ length (places_added s t i st place.now)) }
    {
        match place {
            Place::Common => match self.of(t) {
                Some(modes) => count_added(modes, i),
                None => 0,
            },
            Place::Mode(_) => 1,
        }
    }

    /// How many references to an item leave a place of a thread's loop when it is dropped from there: one for each
    /// object that the thread is given out, which are all that item. It takes time that grows with the places of that
    /// loop that hold the item.
    pub fn dropped(&self, t: ThreadId, place: &Place, i: ObjId) -> usize
        ensures { InStates self.now (λ s st. t < s.thread_count
            → map (λ r. r.object) (drop_deal s st t place.now i).leaves ≡ replicate result i) }
    {
        match self.of(t) {
            Some(modes) => count_dropped(modes, place, i),
            None => 0,
        }
    }

    /// How many places of all loops hold an item: one for each object that a thread is given out which invalidates it.
    /// It looks once at each loop, and takes time that grows with those places.
    pub fn everywhere(&self, i: ObjId) -> usize
        requires { length self.now ≤ THREADS }
        ensures { InStates self.now (λ s st. map (λ r. r.object)
            (leaving st.parts (present_of (every_place s i st.edges) st.edges)).leaves ≡ replicate result i) }
    {
        let mut places = 0;
        for t in 0..self.loops.len() {
            places += count_places(&self.loops[t], i);
        }
        places
    }

    /// Appends the common items that a mode gains when it becomes a common mode, by number: the objects to which an
    /// entry of `common` adds references. It takes no memory.
    pub fn gained(&self, t: ThreadId, m: ModeId, numbers: &mut Vec<ObjId>)
        requires { vec_len numbers.old + length (items_at Common (loop_at t self.now).held) ≤ vec_capacity numbers.old }
        ensures gained { InStates self.now (λ s st. t < s.thread_count → m < length s.modes
            → numbers.new.items ≡ numbers.old.items ++ map (λ r. r.object) (common_deal st t m).enters) }
        ensures room { vec_capacity numbers.new ≡ vec_capacity numbers.old }
    {
        let Some(modes) = self.of(t) else {
            return;
        };
        if !modes.is_common(m) {
            push_gained(modes, m, numbers);
        }
    }
}
