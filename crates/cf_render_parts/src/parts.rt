//! A script that is made from its parts, since the reader takes no statement of run loops yet.
use cf_ids::Seq;
use cf_script::Script;
use cf_syntax::{Block, Handler, Parts, Statement};
use std::alloc::{AllocError, Global};

fn name(alloc: Global, name: &str) -> Result<Seq<u8>, AllocError> {
    Ok(Seq::from_vec(Vec::from_slice(alloc, name.as_bytes())?))
}

/// A block with its name and its statements.
fn block(alloc: Global, name: Seq<u8>, statements: Vec<Statement>) -> Block {
    Block {
        name,
        uses: Seq::from_vec(Vec::new(alloc)),
        variables: Seq::from_vec(Vec::new(alloc)),
        statements: Seq::from_vec(statements),
        lines: Seq::from_vec(Vec::new(alloc)),
        first: 0,
        last: 0,
    }
}

/// The setup block with its statements, and that of the thread `work`.
fn blocks(alloc: Global, statements: Vec<Statement>) -> Result<Vec<Block>, AllocError> {
    let setup = block(alloc, name(alloc, "setup")?, statements);
    let work = block(alloc, name(alloc, "work")?, Vec::new(alloc));
    Ok(vec![in alloc; setup, work]?)
}

/// The handler `seen`, without a block.
fn handlers(alloc: Global) -> Result<Vec<Handler>, AllocError> {
    let name = name(alloc, "seen")?;
    Ok(vec![in alloc; Handler { name, block: None }]?)
}

/// The modes `default` and `panel`.
fn modes(alloc: Global) -> Result<Vec<Seq<u8>>, AllocError> {
    Ok(vec![in alloc; name(alloc, "default")?, name(alloc, "panel")?]?)
}

/// The notice `bell`.
fn notices(alloc: Global) -> Result<Vec<Seq<u8>>, AllocError> {
    Ok(vec![in alloc; name(alloc, "bell")?]?)
}

fn parts(alloc: Global, statements: Vec<Statement>) -> Result<Parts, AllocError> {
    Ok(Parts {
        classes: Seq::from_vec(Vec::new(alloc)),
        blocks: Seq::from_vec(blocks(alloc, statements)?),
        thread_count: 2,
        handlers: Seq::from_vec(handlers(alloc)?),
        modes: Seq::from_vec(modes(alloc)?),
        notices: Seq::from_vec(notices(alloc)?),
    })
}

/// A script whose setup has these statements, of which there are few, so that its numbers fit.
pub(crate) fn script_of(alloc: Global, statements: Vec<Statement>) -> Result<Script, AllocError> {
    let parts = parts(alloc, statements)?;
    if !parts.are_numbered() {
        return Err(AllocError);
    }
    Ok(Script::new(parts))
}
