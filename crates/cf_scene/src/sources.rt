//! Sources are signalled and called.
ghost use Rattle.std.specs.Prelude.{◌≡◌, true};
ghost use Rattle.cf_model.specs.State.{Parts};
ghost use Rattle.cf_model.specs.Things.{is_valid_thing, thing_at};
ghost use Rattle.cf_model.specs.Steps.{fire};
ghost use Rattle.cf_scene.specs.Dealing.{IsSignalled};
ghost use Rattle.cf_scene.specs.Scenes.{Mirrors};

use cf_ids::{Answer, ObjId};
use cf_store::Store;

/// Signals a source. It answers `invalid`, `ok`, or `skip` if the object is no source.
pub fn signal(store: &mut Store, i: ObjId) -> Answer
    ensures { (p : Parts) → Mirrors p store.old.bodies → IsSignalled p i result store.new.bodies }
{
    match store.item(i) {
        Some(item) if item.valid => {
            store.signal(i);
            Answer::Ok
        }
        Some(_) => Answer::Invalid,
        None => Answer::Skip,
    }
}

/// The callout of a valid item begins: a source's signal is taken.
pub fn fire(store: &mut Store, i: ObjId)
    ensures { (p : Parts) → Mirrors p store.old.bodies → is_valid_thing (thing_at p i) ≡ true
        → Mirrors (fire p i (thing_at p i)) store.new.bodies }
{
    if let Some(item) = store.item(i) {
        if item.valid && item.is_signalled() {
            store.begin_callout(i);
        }
    }
}
