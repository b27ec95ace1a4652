//! Numbers as a rendering writes them, and the list inside compared values.
use crate::check::assert_gives;
use cf_ids::{ObjId, Seq, ThreadId};
use std::alloc::{AllocError, Global};
use std::test::Fail;

/// What is shown.
#[derive(Clone, Copy)]
enum Shown {
    Numbers,
    Lent,
    GivenBack,
}

const CASES: [(Shown, &str, &str); 3] = [
    (Shown::Numbers, "#0 #65535 t63 lead", "the words of numbers"),
    (Shown::Lent, "2 [7, 8]", "a list, lent"),
    (Shown::GivenBack, "[7, 8]", "its items, given back"),
];

fn numbers(alloc: Global) -> Result<String, AllocError> {
    format!(in alloc;
        "{} {} {} {}",
        ObjId(0),
        ObjId(65_535),
        ThreadId(63),
        ThreadId::LEAD
    )
}

fn list(alloc: Global) -> Result<Seq<u8>, AllocError> {
    Ok(Seq::from_vec(Vec::from_slice(alloc, &[7, 8])?))
}

fn lent(alloc: Global) -> Result<String, AllocError> {
    let list = list(alloc)?;
    format!(in alloc; "{} {:?}", list.len(), list.as_slice())
}

fn given_back(alloc: Global) -> Result<String, AllocError> {
    let items = list(alloc)?.into_vec();
    format!(in alloc; "{:?}", items.as_slice())
}

fn outcome(alloc: Global, shown: Shown) -> Result<String, AllocError> {
    match shown {
        Shown::Numbers => numbers(alloc),
        Shown::Lent => lent(alloc),
        Shown::GivenBack => given_back(alloc),
    }
}

#[test]
fn numbers_and_lists(rt: HostRuntime) -> Result<(), Fail> {
    for (i, &(shown, gives, about)) in CASES.iter().enumerate() {
        let outcome = outcome(rt.alloc(), shown)?;
        assert_gives(&rt, i, outcome.as_str(), gives, about);
    }
    Ok(())
}
