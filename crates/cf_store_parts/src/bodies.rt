//! How sources are described.
use crate::sample::object;
use cf_body::{Body, ItemState, Kind, LoopItem, describe};
use cf_ids::{HandlerId, TypeId};
use cf_store::NoMemory;
use std::alloc::Global;
use std::test::Fail;

/// The description of a source.
fn described(alloc: Global, valid: bool, signalled: bool) -> Result<Vec<u8>, NoMemory> {
    let state = ItemState::Source {
        order: 5,
        signalled,
    };
    let item = LoopItem {
        handler: HandlerId(7),
        info: Some(object(0)),
        valid,
        state,
    };
    describe(alloc, &[], &Body::new(TypeId(11), Kind::Item(item)))
}

// Whether a source is valid, whether it is signalled, and its description.
const CASES: [(bool, bool, &str); 4] = [
    (true, false, "RunLoopSource valid"),
    (true, true, "RunLoopSource valid signalled"),
    (false, false, "RunLoopSource invalid"),
    (false, true, "RunLoopSource invalid signalled"),
];

#[test]
fn descriptions(rt: HostRuntime) -> Result<(), Fail> {
    for (valid, signalled, wanted) in &CASES {
        let got = described(rt.alloc(), *valid, *signalled)?;
        assert_eq!(rt; got.as_slice(), wanted.as_bytes(), "{wanted}");
    }
    Ok(())
}
