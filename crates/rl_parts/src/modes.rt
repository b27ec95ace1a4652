//! Modes: which places hold an item, and which calls are refused.
use cf_ids::{Item, ItemKind, ModeId, ObjId};
use rl_modes::{Modes, NoMemory, Place};
use std::alloc::Global;
use std::test::Fail;

// A source that is common and so in the default mode, and in the modes 7 and 5.
fn held(alloc: Global) -> Result<Modes, NoMemory> {
    let mut modes = Modes::new(alloc);
    modes.reserve(2)?;
    let common = modes.add_common(SOURCE).is_ok();
    modes.reserve(1)?;
    let seventh = modes.add(ModeId(7), SOURCE).is_ok();
    modes.reserve(1)?;
    let fifth = modes.add(ModeId(5), SOURCE).is_ok();
    if common && seventh && fifth {
        Ok(modes)
    } else {
        Ok(Modes::new(alloc))
    }
}

const SOURCE: Item = Item {
    id: ObjId(8),
    kind: ItemKind::Source,
};

#[derive(Clone, Copy)]
enum ModeCall {
    Look,
    AddFifth,
    RemoveCommon,
    RemoveFifth,
    RemoveSeventh,
}

/// Whether a call is done.
fn call(modes: &mut Modes, call: &ModeCall) -> Result<bool, NoMemory> {
    modes.reserve(1)?;
    Ok(match call {
        ModeCall::Look => true,
        ModeCall::AddFifth => modes.add(ModeId(5), SOURCE).is_ok(),
        ModeCall::RemoveCommon => modes.remove_common(ObjId(8)).is_ok(),
        ModeCall::RemoveFifth => modes.remove(ModeId(5), ObjId(8)).is_ok(),
        ModeCall::RemoveSeventh => modes.remove(ModeId(7), ObjId(8)).is_ok(),
    })
}

// What stands for the common items and for no place. Modes have numbers below them.
const COMMON: u16 = 1024;

const NONE: u16 = 1025;

fn number(place: &Place) -> u16 {
    match place {
        Place::Common => COMMON,
        Place::Mode(mode) => mode.0,
    }
}

/// The numbers of the first five places that hold the source.
fn places(modes: &Modes) -> [u16; 5] {
    let at = |k: usize| modes
        .place(ObjId(8), k)
        .map_or(NONE, |place| number(&place));
    [at(0), at(1), at(2), at(3), at(4)]
}

// A call, whether it is done, whether mode 7 is empty then, and which places hold the source.
const MODE_CASES: [(&str, ModeCall, [bool; 2], [u16; 5]); 9] = [
    (
        "the common items first, then modes by number",
        ModeCall::Look,
        [true, false],
        [COMMON, 0, 5, 7, NONE],
    ),
    (
        "common modes leave, others keep it",
        ModeCall::RemoveCommon,
        [true, false],
        [5, 7, NONE, NONE, NONE],
    ),
    (
        "no common item any more",
        ModeCall::RemoveCommon,
        [false, false],
        [5, 7, NONE, NONE, NONE],
    ),
    (
        "added where it is",
        ModeCall::AddFifth,
        [false, false],
        [5, 7, NONE, NONE, NONE],
    ),
    (
        "removed",
        ModeCall::RemoveFifth,
        [true, false],
        [7, NONE, NONE, NONE, NONE],
    ),
    (
        "removed where it is not",
        ModeCall::RemoveFifth,
        [false, false],
        [7, NONE, NONE, NONE, NONE],
    ),
    (
        "the last one of a mode",
        ModeCall::RemoveSeventh,
        [true, true],
        [NONE; 5],
    ),
    (
        "added again",
        ModeCall::AddFifth,
        [true, true],
        [5, NONE, NONE, NONE, NONE],
    ),
    (
        "not a common item",
        ModeCall::RemoveCommon,
        [false, true],
        [5, NONE, NONE, NONE, NONE],
    ),
];

#[test]
fn modes(rt: HostRuntime) -> Result<(), Fail> {
    let mut modes = held(rt.alloc())?;
    for (case, done, answer, wanted) in &MODE_CASES {
        let got = call(&mut modes, done)?;
        let empty = modes.is_empty(ModeId(7));
        assert_eq!(rt;
            ([got, empty], places(&modes)),
            (*answer, *wanted),
            "{case}"
        );
    }
    Ok(())
}
