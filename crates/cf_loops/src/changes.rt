//! What comes into the loops and what leaves them.
ghost use Rattle.std.specs.Prelude.{◌≡◌, ℕ, ◌<◌, ◌≤◌, Some, true, false, if◌then◌else◌, length};
ghost use Rattle.rl_base.specs.Modes.{rank};
ghost use Rattle.rl_base.specs.declared.places.Place.TheVariants.{Mode};
ghost use Rattle.rl_modes.specs.Loops.{each_in, common_gained, holds_at, in_each, is_among, with_mode, with_these};
ghost use Rattle.cf_model.specs.Things.{Thing, thing_at};
ghost use Rattle.cf_model.specs.Deals.{common_deal, drop_deal, entering, every_place, held_at, invalidate_deal, leaving, places_added};
ghost use Rattle.cf_model.specs.Own.{present_of};
ghost use Rattle.cf_loops.specs.Following.{AfterDeal, InStates, kind_in, loop_at};
ghost use Rattle.cf_loops.specs.Rooms.{most_added, most_gained};
ghost use Rattle.cf_loops.specs.Changing.{HasLeft, held_after_drop, places_gained};

use crate::loops::Loops;
use cf_ids::{Item, ModeId, ObjId, ThreadId};
use rl_base::Place;
use rl_modes::Modes;

impl Loops {
    /// Adds an item to a place of a thread's loop which does not hold it: to a mode, or to the common items and each
    /// common mode that does not hold it. It takes no memory.
    pub fn add(&mut self, t: ThreadId, place: &Place, item: &Item)
        requires thread { t < length self.old }
        requires absent { holds_at (loop_at t self.old).held item.now.id place.now ≡ false }
        requires room { most_added place.now (loop_at t self.old) ≤ (loop_at t self.old).room }
        ensures { InStates self.old (λ s st. (by : ℕ) → rank place.now ≤ length s.modes
            → kind_in (thing_at st.parts item.now.id) ≡ Some item.now.kind
            → AfterDeal s st by (entering st.parts
            (held_at t item.now.id (places_added s t item.now.id st place.now))) self.new) }
    {
        add_to(&mut self.loops[t.0 as usize], place, item);
    }

    /// Drops an item from a place of a thread's loop, if that holds it: from a mode, or from the common items and each
    /// common mode that holds it. A mode that is not common keeps it.
    pub fn drop_from(&mut self, t: ThreadId, place: &Place, i: ObjId)
        requires { t < length self.old }
        ensures { InStates self.old (λ s st. (by : ℕ) → AfterDeal s st by (drop_deal s st t place.now i) self.new) }
    {
        leave(&mut self.loops[t.0 as usize], place, i);
    }

    /// Makes a mode a common mode of a thread's loop, if it is none yet: it gains each common item that it does not
    /// hold. It takes no memory.
    pub fn make_common(&mut self, t: ThreadId, m: ModeId)
        requires thread { t < length self.old }
        requires room { most_gained (loop_at t self.old) ≤ (loop_at t self.old).room }
        ensures { InStates self.old (λ s st. (by : ℕ) → m < length s.modes
            → AfterDeal s st by (common_deal st t m) self.new) }
    {
        make_common(&mut self.loops[t.0 as usize], m);
    }

    /// Takes an item out of every place of all loops. It looks once at each loop, and takes time that grows with the
    /// places that hold the item, however many modes there are.
    pub fn leave_all(&mut self, i: ObjId)
        ensures left { InStates self.old (λ s st. (by : ℕ) → AfterDeal s st by
            (leaving st.parts (present_of (every_place s i st.edges) st.edges)) self.new) }
        ensures invalidated { InStates self.old (λ s st. (by : ℕ) (x : Thing) → thing_at st.parts i ≡ Some x
            → x.valid ≡ true → AfterDeal s st by (invalidate_deal s st i x) self.new) }
    {
        for t in 0..self.loops.len() {
            leave_places(&mut self.loops[t], i);
        }
    }
}

/// Adds an item to a place of a loop which does not hold it.
fn add_to(modes: &mut Modes, place: &Place, item: &Item)
    requires absent { holds_at modes.old.held item.now.id place.now ≡ false }
    requires room { most_added place.now modes.old ≤ modes.old.room }
    ensures held { modes.new.held
        ≡ with_these (in_each item.now (places_gained item.now.id place.now modes.old)) modes.old.held }
    ensures common_modes { modes.new.common_modes ≡ modes.old.common_modes }
{
    let _ = match place {
        Place::Common => modes.add_common(*item),
        Place::Mode(mode) => modes.add(*mode, *item),
    };
}

/// Drops an item from a place of a loop, if that holds it.
fn leave(modes: &mut Modes, place: &Place, item: ObjId)
    ensures held { modes.new.held ≡ held_after_drop item place.now modes.old }
    ensures common_modes { modes.new.common_modes ≡ modes.old.common_modes }
{
    let _ = match place {
        Place::Common => modes.remove_common(item),
        Place::Mode(mode) => modes.remove(*mode, item),
    };
}

/// Makes a mode of a loop a common one, if it is none yet.
fn make_common(modes: &mut Modes, mode: ModeId)
    requires { most_gained modes.old ≤ modes.old.room }
    ensures held { modes.new.held ≡ (if is_among mode modes.old.common_modes then modes.old.held
        else with_these (each_in (Mode mode) (common_gained mode modes.old.held)) modes.old.held) }
    ensures common_modes { modes.new.common_modes ≡ (if is_among mode modes.old.common_modes
        then modes.old.common_modes else with_mode mode modes.old.common_modes) }
{
    let _ = modes.make_common(mode);
}

/// Takes an item out of each place of a loop.
fn leave_places(modes: &mut Modes, item: ObjId)
    ensures { HasLeft item modes.old modes.new }
{
    while let Some(place) = modes.place(item, 0) {
        leave(modes, &place, item);
    }
}
