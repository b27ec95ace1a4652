//! A script around statements of setup.
use cf_ids::SCRIPT_BYTES;
use cf_script::{Script, ScriptFault, read_script};
use std::alloc::{AllocError, Global};

/// The lines before the statements.
const BEFORE: &[u8] = b"cf 1\nclass pair fields 2 equal key\nsetup\n";

/// The lines after them.
const AFTER: &[u8] = b"end\nthread work\nend\nhandler seen\nend\n";

/// The text of a script whose setup has these lines.
fn text(alloc: Global, lines: &[&str]) -> Result<Vec<u8>, AllocError> {
    let mut text = Vec::from_slice(alloc, BEFORE)?;
    for line in lines {
        text.extend_from_slice(line.as_bytes())?;
        text.push(b'\n')?;
    }
    text.extend_from_slice(AFTER)?;
    Ok(text)
}

/// A script with the class `pair`, the thread `work` and the handler `seen`, whose setup has these lines, of fewer
/// bytes than a script may have.
pub(crate) fn script(alloc: Global, lines: &[&str]) -> Result<Script, ScriptFault> {
    let Ok(text) = text(alloc, lines) else {
        return Err(ScriptFault::NoMemory);
    };
    if text.len() > SCRIPT_BYTES {
        return Err(ScriptFault::NoMemory);
    }
    read_script(alloc, &text)
}
