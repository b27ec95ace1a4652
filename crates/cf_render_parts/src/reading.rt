//! What is read of a script: its first text, without escapes, and its lines.
use cf_ids::SCRIPT_BYTES;
use cf_script::{Script, read_script};
use cf_syntax::{Block, Statement};
use std::alloc::Global;
use std::process::Abort;

/// A script whose string has each escape.
const TEXT: &[u8] = b"cf 1\nsetup\nmake a string \"a\\\"b\\\\c\\nd\"\nrelease a\nend\n";

fn script(alloc: Global) -> Option<Script> {
    if TEXT.len() > SCRIPT_BYTES {
        return None;
    }
    read_script(alloc, TEXT).ok()
}

/// The length and the bytes of the text of a statement that makes a string.
fn text_of(alloc: Global, statement: &Statement) -> Option<String> {
    let Statement::MakeString { text, .. } = statement else {
        return None;
    };
    let bytes = text.text().utf8(alloc).ok()?;
    format!(in alloc; "{} {:?}", text.text().length(), bytes.as_slice()).ok()
}

/// The lines of a block: its first and its last, and those of its statements.
fn lines_of(alloc: Global, block: &Block) -> Option<String> {
    format!(in alloc;
        "{} {} {:?}",
        block.first,
        block.last,
        block.lines.as_slice()
    )
    .ok()
}

/// Whether the first text of a block and its lines are these.
fn is_read_as(alloc: Global, block: &Block, text: &str, lines: &str) -> bool {
    let Some(statement) = block.statements.as_slice().first() else {
        return false;
    };
    match (&text_of(alloc, statement), &lines_of(alloc, block)) {
        (Some(said), Some(told)) => said.as_str() == text && told.as_str() == lines,
        _ => false,
    }
}

/// Whether the script has one block, which is read as it stands.
fn is_read(alloc: Global) -> bool {
    let Some(script) = &script(alloc) else {
        return false;
    };
    match script.blocks() {
        [block] => is_read_as(
            alloc,
            block,
            "7 [97, 34, 98, 92, 99, 10, 100]",
            "2 5 [3, 4]",
        ),
        _ => false,
    }
}

#[test]
fn a_text_is_unescaped(rt: HostRuntime) {
    assert!(rt;
        is_read(rt.alloc()),
        "a script whose string has each escape"
    );
}
