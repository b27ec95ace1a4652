//! A script is run without words, for what these cannot ask yet: the line of each entry, and a limit.
ghost use Rattle.std.specs.Prelude.{IfOk, IfSome};
ghost use Rattle.cf_model.specs.Journals.{After, IsLegal};
ghost use Rattle.cf_serial.specs.Serial.{AreEdges};
ghost use Rattle.cf_syntax.specs.Stage.{IsOfStage};

use cf_ids::SCRIPT_BYTES;
use cf_outside::StepClock;
use cf_owncheck::{Checked, OwnFault, check_owners};
use cf_render::{edges_in_any_order, render};
use cf_run::{Ending, Entry, Ran, serial_run};
use cf_script::{ScriptFault, read_script};
use std::alloc::{AllocError, Global};

/// What a case came to.
#[derive(Drop)]
pub struct Came {
    /// The exit status.
    pub status: u64,
    /// The entries of the journal.
    pub journal: Vec<Entry>,
    /// The bytes that are written.
    pub written: Vec<u8>,
}

/// Reads a script, and runs it with this limit, from 1 to 4,000,000; another is taken for the nearest of these. Each
/// entry has its line if `is_full`. Of bytes that are refused the status alone is told.
pub fn came_of_script(
    alloc: Global,
    bytes: &[u8],
    limit: u64,
    is_full: bool,
) -> Result<Came, AllocError> {
    let Some(checked) = owned_script(alloc, bytes)? else {
        return Ok(Came {
            status: 3,
            journal: Vec::new(alloc),
            written: Vec::new(alloc),
        });
    };
    let limit = limit.clamp(1, 4_000_000) as u32;
    let ran = serial_run(alloc, checked, limit, &mut StepClock)?;
    let written = written_of(alloc, &ran, is_full)?;
    Ok(Came {
        status: status_of(ran.ending),
        journal: ran.journal,
        written,
    })
}

/// The run of a script with this limit, from 1 to 4,000,000; none if the bytes are refused.
pub fn run_of_script(alloc: Global, bytes: &[u8], limit: u64) -> Result<Option<Ran>, AllocError> {
    let Some(checked) = owned_script(alloc, bytes)? else {
        return Ok(None);
    };
    let limit = limit.clamp(1, 4_000_000) as u32;
    let ran = serial_run(alloc, checked, limit, &mut StepClock)?;
    Ok(Some(ran))
}

/// The owned script that bytes are the text of, if they are.
pub fn owned_script(alloc: Global, bytes: &[u8]) -> Result<Option<Checked>, AllocError>
    ensures { IfOk result (λ o. IfSome o (λ c. IsOfStage c)) }
{
    if SCRIPT_BYTES < bytes.len() {
        return Ok(None);
    }
    match read_script(alloc, bytes) {
        Ok(script) => match check_owners(script) {
            Ok(checked) => Ok(Some(checked)),
            Err(OwnFault::Refused(_)) => Ok(None),
            Err(OwnFault::NoMemory) => Err(AllocError),
        },
        Err(ScriptFault::Refused(_)) => Ok(None),
        Err(ScriptFault::NoMemory) => Err(AllocError),
    }
}

// The lines of a run that is over.
fn written_of(alloc: Global, ran: &Ran, is_full: bool) -> Result<Vec<u8>, AllocError>
    requires legal { IsLegal ran.now.script ran.now.journal.items }
    requires edges { AreEdges (After ran.now.script ran.now.journal.items).edges ran.now.edges.items }
{
    edges_in_any_order();
    render(
        alloc,
        ran.script.script(),
        ran.journal.as_slice(),
        ran.edges.as_slice(),
        ran.ending,
        is_full,
    )
}

// The exit status of an ending.
fn status_of(ending: Ending) -> u64 {
    match ending {
        Ending::Done => 0,
        Ending::Limit => 7,
        Ending::Full => 8,
        Ending::Stalled => 9,
    }
}
