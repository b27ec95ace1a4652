//! The parts of a script with a line of each kind.
use cf_ids::{HandlerId, ModeId, NameId, ObjId, Seq, VarId};
use cf_syntax::{Block, Given, Handler, Parts, Script, Statement};
use std::alloc::{AllocError, Global};

const X: VarId = VarId(0);

const Y: VarId = VarId(1);

/// A name of which nothing is asked.
fn unnamed(alloc: Global) -> Seq<u8> {
    Seq::from_vec(Vec::new(alloc))
}

/// A block with what it takes from setup and its statements.
fn block(alloc: Global, uses: Vec<Given>, statements: Vec<Statement>) -> Block {
    Block {
        name: unnamed(alloc),
        uses: Seq::from_vec(uses),
        variables: Seq::from_vec(Vec::new(alloc)),
        statements: Seq::from_vec(statements),
        lines: Seq::from_vec(Vec::new(alloc)),
        first: 0,
        last: 0,
    }
}

/// Setup retains x 65 times, posts, and runs; its x is packed for thread 1, which claims it, takes from an array, runs
/// and releases. Handler 0 retains and releases its info, and runs; handler 1 has no block. There are three modes.
fn parts(alloc: Global) -> Result<Parts, AllocError> {
    let mut setup = vec![in alloc;
        Statement::MakeArray {
            variable: X,
            plain: false
        },
    ]?;
    for _ in 0..65u8 {
        setup
            .push(Statement::Retain { variable: X })
            .map_err(AllocError::from)?;
    }
    setup
        .push(Statement::Post {
            name: NameId(0),
            info: Some(X),
        })
        .map_err(AllocError::from)?;
    let thread = vec![in alloc;
        Statement::ArrTake {
            variable: Y,
            array: X,
            at: 0
        },
        Statement::Run {
            mode: ModeId(1),
            limit: Some(10),
            once: true
        },
        Statement::Release { variable: X },
    ]?;
    let handler = vec![in alloc;
        Statement::Retain { variable: X },
        Statement::Run {
            mode: ModeId(2),
            limit: None,
            once: false
        },
        Statement::Release { variable: X },
    ]?;
    let uses = vec![in alloc;
        Given {
            setup: Some(X),
            own: X
        },
    ]?;
    let blocks = vec![in alloc;
        block(alloc, Vec::new(alloc), setup),
        block(alloc, uses, thread),
        block(alloc, Vec::new(alloc), handler),
    ]?;
    let handlers = vec![in alloc;
        Handler {
            name: unnamed(alloc),
            block: Some(2)
        },
        Handler {
            name: unnamed(alloc),
            block: None
        },
    ]?;
    Ok(Parts {
        classes: Seq::from_vec(Vec::new(alloc)),
        blocks: Seq::from_vec(blocks),
        thread_count: 2,
        handlers: Seq::from_vec(handlers),
        modes: Seq::from_vec(vec![in alloc; unnamed(alloc), unnamed(alloc), unnamed(alloc)]?),
        notices: Seq::from_vec(Vec::new(alloc)),
    })
}

/// The script of the parts. Their numbers are small, so that they fit.
pub(crate) fn script(alloc: Global) -> Result<Script, AllocError> {
    let parts = parts(alloc)?;
    if !parts.are_numbered() {
        return Err(AllocError);
    }
    Ok(Script::new(parts))
}
