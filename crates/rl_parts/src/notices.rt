//! Notices: which registrations are there, which receive a notice, and which are forgotten.
use crate::items::object;
use cf_ids::{HandlerId, NameId, ObjId};
use cf_notify::{Centre, NoMemory, RegId, Registration};
use std::alloc::Global;
use std::test::Fail;

// What stands for no registration, for any name and for any object. Those of the cases have numbers below it.
const NONE: u8 = 99;

fn name(number: u8) -> Option<NameId> {
    if number == NONE {
        return None;
    }
    Some(NameId(u16::from(number)))
}

fn filter(number: u8) -> Option<ObjId> {
    if number == NONE {
        return None;
    }
    Some(object(u16::from(number)))
}

// Seven registrations: 0, 3 and 6 of the observer 5 for the name 2, of which 3 has the filter 9; 2 and 5 of that
// observer for any name, of which 5 has the filter 9; 1 of the observer 6 for any name, and 4 of 7 for the name 3.
fn seven(alloc: Global) -> Result<Centre, NoMemory> {
    let mut centre = Centre::new(alloc);
    centre.reserve(7)?;
    centre.observe(ObjId(5), HandlerId(1), Some(NameId(2)), None);
    centre.observe(ObjId(6), HandlerId(2), None, None);
    centre.observe(ObjId(5), HandlerId(1), None, None);
    centre.observe(ObjId(5), HandlerId(3), Some(NameId(2)), Some(ObjId(9)));
    centre.observe(ObjId(7), HandlerId(1), Some(NameId(3)), None);
    centre.observe(ObjId(5), HandlerId(1), None, Some(ObjId(9)));
    centre.observe(ObjId(5), HandlerId(4), Some(NameId(2)), None);
    Ok(centre)
}

// A registration after another one of its number was forgotten.
fn again(alloc: Global) -> Result<(Centre, RegId), NoMemory> {
    let mut centre = Centre::new(alloc);
    centre.reserve(2)?;
    centre.observe(ObjId(5), HandlerId(1), Some(NameId(2)), None);
    centre.forget(ObjId(5), None, None);
    let second = centre.observe(ObjId(5), HandlerId(1), Some(NameId(2)), None);
    Ok((centre, second))
}

/// The observer, the handler, the name and the filter of a registration.
fn fields(made: &Registration) -> [u32; 4] {
    [
        made.observer.0,
        u32::from(made.handler.0),
        made.name.map_or(u32::from(NONE), |name| u32::from(name.0)),
        made.filter.map_or(u32::from(NONE), |filter| filter.0),
    ]
}

/// The first seven registrations that receive a notice of this name and object.
fn received(alloc: Global, centre: &Centre, notice: [u8; 2]) -> Result<[u32; 7], NoMemory> {
    let mut found = Vec::new(alloc);
    found.reserve(centre.count())?;
    centre.collect(NameId(u16::from(notice[0])), filter(notice[1]), &mut found);
    let at = |i: usize| found.get(i).map_or(u32::from(NONE), |r| r.0);
    Ok([at(0), at(1), at(2), at(3), at(4), at(5), at(6)])
}

#[derive(Clone, Copy)]
enum NoticeCall {
    Look,
    // An observer, a name and a filter.
    Forget(u8, u8, u8),
}

/// How many registrations a call takes out, and how many are there then.
fn call(centre: &mut Centre, call: &NoticeCall) -> [usize; 2] {
    let gone = match *call {
        NoticeCall::Look => 0,
        NoticeCall::Forget(observer, named, filtered) => {
            centre.forget(object(u16::from(observer)), name(named), filter(filtered))
        }
    };
    [gone, centre.count()]
}

// A call, how many it takes out and how many are there then, and which receive a notice of this name and object.
const NOTICE_CASES: [(&str, NoticeCall, [usize; 2], [u8; 2], [u32; 7]); 15] = [
    (
        "of a name without an object: no filter, in order of registration",
        NoticeCall::Look,
        [0, 7],
        [2, NONE],
        [0, 1, 2, 6, 99, 99, 99],
    ),
    (
        "with the object of the filters",
        NoticeCall::Look,
        [0, 7],
        [2, 9],
        [0, 1, 2, 3, 5, 6, 99],
    ),
    (
        "with another object",
        NoticeCall::Look,
        [0, 7],
        [2, 8],
        [0, 1, 2, 6, 99, 99, 99],
    ),
    (
        "of another name",
        NoticeCall::Look,
        [0, 7],
        [3, 9],
        [1, 2, 4, 5, 99, 99, 99],
    ),
    (
        "of a name that none has",
        NoticeCall::Look,
        [0, 7],
        [4, NONE],
        [1, 2, 99, 99, 99, 99, 99],
    ),
    (
        "a given name does not take out one for any",
        NoticeCall::Forget(6, 2, NONE),
        [0, 7],
        [2, NONE],
        [0, 1, 2, 6, 99, 99, 99],
    ),
    (
        "a given filter does not take out one for any object",
        NoticeCall::Forget(5, 2, 8),
        [0, 7],
        [2, 9],
        [0, 1, 2, 3, 5, 6, 99],
    ),
    (
        "no registration of that observer",
        NoticeCall::Forget(9, NONE, NONE),
        [0, 7],
        [2, 9],
        [0, 1, 2, 3, 5, 6, 99],
    ),
    (
        "a name and a filter",
        NoticeCall::Forget(5, 2, 9),
        [1, 6],
        [2, 9],
        [0, 1, 2, 5, 6, 99, 99],
    ),
    (
        "a name and any filter",
        NoticeCall::Forget(5, 2, NONE),
        [2, 4],
        [2, 9],
        [1, 2, 5, 99, 99, 99, 99],
    ),
    (
        "forgotten once",
        NoticeCall::Forget(5, 2, NONE),
        [0, 4],
        [2, 9],
        [1, 2, 5, 99, 99, 99, 99],
    ),
    (
        "any name and any filter: all that are left, one with a filter too",
        NoticeCall::Forget(5, NONE, NONE),
        [2, 2],
        [2, 9],
        [1, 99, 99, 99, 99, 99, 99],
    ),
    (
        "those of others stay",
        NoticeCall::Look,
        [0, 2],
        [3, NONE],
        [1, 4, 99, 99, 99, 99, 99],
    ),
    (
        "any name, and the name that it has",
        NoticeCall::Forget(7, NONE, NONE),
        [1, 1],
        [3, NONE],
        [1, 99, 99, 99, 99, 99, 99],
    ),
    (
        "the last one",
        NoticeCall::Forget(6, NONE, NONE),
        [1, 0],
        [2, 9],
        [99, 99, 99, 99, 99, 99, 99],
    ),
];

#[test]
fn notices(rt: HostRuntime) -> Result<(), Fail> {
    let alloc = rt.alloc();
    let mut centre = seven(alloc)?;
    centre.reserve(0)?;
    for (case, done, answer, notice, wanted) in &NOTICE_CASES {
        let got = call(&mut centre, done);
        let found = received(alloc, &centre, *notice)?;
        assert_eq!(rt; (got, found), (*answer, *wanted), "{case}");
    }
    Ok(())
}

#[test]
fn registrations(rt: HostRuntime) -> Result<(), Fail> {
    let alloc = rt.alloc();
    let mut none = Centre::new(alloc);
    none.reserve(0)?;
    let all = seven(alloc)?;
    let (renewed, second) = again(alloc)?;
    for (case, centre, number, there, wanted) in [
        ("no registration", &none, RegId(0), 0, [99, 99, 99, 99]),
        (
            "one for any name and object",
            &all,
            RegId(1),
            7,
            [6, 2, 99, 99],
        ),
        (
            "one with a name and a filter",
            &all,
            RegId(3),
            7,
            [5, 3, 2, 9],
        ),
        ("one that was not made", &all, RegId(7), 7, [99, 99, 99, 99]),
        ("a forgotten one", &renewed, RegId(0), 1, [99, 99, 99, 99]),
        ("the one after it", &renewed, second, 1, [5, 1, 2, 99]),
    ] {
        let found = centre
            .get(number)
            .map_or([99, 99, 99, 99], |made| fields(made));
        assert_eq!(rt;
            (found, centre.is_there(number), centre.count()),
            (wanted, wanted != [99, 99, 99, 99], there),
            "{case}"
        );
    }
    assert_eq!(rt; second, RegId(1), "a number is not used again");
    Ok(())
}
