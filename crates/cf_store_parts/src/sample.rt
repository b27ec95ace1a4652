//! A store with a string and three sources.
ghost use Rattle.std.specs.Prelude.{◌≡◌, ◌<◌, OnOk};
ghost use Rattle.cf_contents.specs.Contents.{member_limit, size_of};
ghost use Rattle.cf_contents.specs.Stores.{MayGrow};
ghost use Rattle.cf_body.specs.Bodies.{content_of, most_in};
ghost use Rattle.cf_body.specs.Items.{item_in};
ghost use Rattle.cf_store.specs.Sources.{IsNewItem};

use cf_body::{Body, ItemState, Kind, LoopItem};
use cf_ids::{HandlerId, ObjId, TypeId, VarId};
use cf_store::{NoMemory, Store};
use cf_string::Str;
use cf_syntax::Statement;
use std::alloc::Global;

/// The type of sources.
const SOURCE: TypeId = TypeId(11);

/// The object of this number.
pub fn object(number: u16) -> ObjId {
    ObjId(u32::from(number))
}

/// Fills an empty store: object 0 is a string, 1 a source of order 1 with that as its info, 2 one of order -2, and 3
/// one of order 1.
pub fn fill(alloc: Global, store: &mut Store) -> Result<(), NoMemory>
    requires { MayGrow store.old.bodies }
    ensures { OnOk result (MayGrow store.new.bodies) }
{
    let text = Str::new(alloc);
    put(
        alloc,
        store,
        TypeId::STRING,
        Kind::Text {
            mutable: false,
            text,
        },
    )?;
    put_source(alloc, store, HandlerId(7), 1, Some(object(0)))?;
    put_source(alloc, store, HandlerId(8), -2, None)?;
    put_source(alloc, store, HandlerId(7), 1, None)
}

/// Makes a new source.
fn put_source(
    alloc: Global,
    store: &mut Store,
    handler: HandlerId,
    order: i64,
    info: Option<ObjId>,
) -> Result<(), NoMemory>
    requires { MayGrow store.old.bodies }
    ensures { OnOk result (MayGrow store.new.bodies) }
{
    let state = ItemState::Source {
        order,
        signalled: false,
    };
    let item = LoopItem {
        handler,
        info,
        valid: true,
        state,
    };
    put(alloc, store, SOURCE, Kind::Item(item))
}

/// Makes a new object that has no members.
fn put(alloc: Global, store: &mut Store, class: TypeId, kind: Kind) -> Result<(), NoMemory>
    requires grows { MayGrow store.old.bodies }
    requires few { most_in (content_of kind) < member_limit }
    requires small { size_of (content_of kind) ≡ 0 }
    requires new { IsNewItem (item_in (content_of kind)) }
    ensures { OnOk result (MayGrow store.new.bodies) }
{
    let nothing = Statement::Show { variable: VarId(0) };
    store.reserve_for(alloc, &[], &nothing, &[None; 3])?;
    if store.count() < 65536 {
        store.make(Body::new(class, kind));
    }
    Ok(())
}
