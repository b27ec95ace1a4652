//! What the frames of a thread ask of the world.
ghost use Rattle.std.specs.Prelude.{◌≡◌, ◌+◌, ◌<◌, ◌^◌, IfSome};
ghost use Rattle.std.specs.Option.{option_map};
ghost use Rattle.cf_next.specs.Facts.{Facts as Known};
ghost use Rattle.cf_next.specs.Views.{callout_of_item, callout_of_receiver};

use cf_ids::{HandlerId, ModeId, ObjId, ThreadId};

/// The facts on which it depends what a thread does next. Each call takes no memory.
pub trait Facts {
    /// All of them. A world gives them as functions over its own parts, so that they cost no copy.
    ghost known: { Self → Known };

    /// The time, in ticks.
    fn time(&self) -> u64
        ensures { result ≡ (known self.now).time };

    /// Whether a mode of a thread's loop holds an item.
    fn holds(&self, t: ThreadId, m: ModeId, i: ObjId) -> bool
        ensures { result ≡ (known self.now).holds t m i };

    /// Whether a mode of a thread's loop has neither a source nor a timer.
    fn is_empty(&self, t: ThreadId, m: ModeId) -> bool
        ensures { result ≡ (known self.now).is_empty t m };

    /// Whether an item was made and not invalidated.
    fn is_valid(&self, i: ObjId) -> bool
        ensures { result ≡ (known self.now).is_valid i };

    /// Whether a source is signalled.
    fn is_signalled(&self, s: ObjId) -> bool
        ensures { result ≡ (known self.now).is_signalled s };

    /// The next date of a timer, in ticks.
    fn next_date(&self, t: ObjId) -> Option<u64>
        ensures { result ≡ (known self.now).next_date t };

    /// Whether an observer is called again and again, and not once.
    fn repeats(&self, o: ObjId) -> bool
        ensures { result ≡ (known self.now).repeats o };

    /// An item's handler and info.
    fn callout(&self, i: ObjId) -> Option<(HandlerId, Option<ObjId>)>
        ensures { option_map callout_of_item result ≡ (known self.now).callout i };

    /// The handler and the observer of a registration, and none if it is not there or its observer or its filter
    /// object is not live.
    fn receiver(&self, r: u32) -> Option<(HandlerId, ObjId)>
        ensures { option_map callout_of_receiver result ≡ (known self.now).receiver r };

    /// What setup packed for the used variable at a place of those of a thread.
    fn parcel(&self, t: ThreadId, k: usize) -> Option<ObjId>
        ensures { result ≡ (known self.now).parcel t k };

    /// The slot at a place of those that a finalised body had, and none if it is dropped or was not there. A body has
    /// fewer than 2^32 slots, so that each place has a number.
    fn slot(&self, b: ObjId, k: usize) -> Option<ObjId>
        ensures slot { result ≡ (known self.now).slot b k }
        ensures place { IfSome result (λ _. k + 1 < 2 ^ 32) };
}
