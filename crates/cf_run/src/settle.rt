//! What a command comes to before a line of it is written: the file is read, and its script is run.
ghost use Rattle.std.specs.Prelude.{◌≡◌, ◌≤◌, ◌<◌, map, length, IfOk, OnOk, IfSome, IsSomeAnd, IsErrOf};
ghost use Rattle.cf_ids.specs.declared.limits.TheConstants.{SCRIPT_BYTES};
ghost use Rattle.cf_fault.specs.Fault.{HasRisen};
ghost use Rattle.cf_io.specs.Whole.{UnlessReadFault};
ghost use Rattle.cf_io.specs.Bytes.{IsAtEnd};
ghost use Rattle.cf_io.specs.Files.{content_of};
ghost use Rattle.cf_run.specs.Calls.{told_by};
ghost use Rattle.cf_run.specs.Outcomes.{IsContent};
ghost use Rattle.cf_run.specs.Settled.{Accepts, SettlesBytes, Settles, status_by, status_of, entries_of};

use crate::command::file_of;
use cf_ids::{DEFAULT_LIMIT, SCRIPT_BYTES};
use cf_io::{ReadAll, Source, read_all};
use cf_model::{Ending, Entry};
use cf_outside::StepClock;
use cf_owncheck::{Checked, OwnFault, check_owners};
use cf_script::{Reason, Refusal, ScriptFault, read_script};
use cf_serial::{Ran, serial_run};
use std::alloc::{AllocError, Global};

/// What a command came to.
#[derive(Drop)]
pub enum Settled {
    /// The words are not of the forms that are taken.
    Usage,
    /// The file could not be read.
    ReadFault,
    /// Its bytes are refused.
    Refused(Refusal),
    /// Its script has run.
    Ran(Ran),
}

// The bytes of a file, where they are no more than a script may have.
fn read_file<S: Source>(alloc: Global, source: &mut S, name: &str) -> Result<Vec<u8>, ReadAll>
    ensures whole { IfOk result (λ all. IsContent (S.files source.old) name.now all.items) }
    ensures fits { IfOk result (λ all. length all.items ≤ SCRIPT_BYTES) }
    ensures at_end { OnOk result (IsAtEnd (S.left source.new)) }
    ensures quiet { UnlessReadFault result (S.faults source.new ≡ S.faults source.old) }
    ensures too_long { IsErrOf result ReadAll.TooLong →
        IfSome (S.files source.old)
        (λ told. IsSomeAnd (content_of told name.now) (λ bytes. SCRIPT_BYTES < length bytes)) }
    ensures fault { IsErrOf result ReadAll.ReadFault → HasRisen (S.faults source.old) (S.faults source.new) }
{
    source.open(name).map_err(|_| ReadAll::ReadFault)?;
    read_all(alloc, source, SCRIPT_BYTES)
}

// The owned script that bytes are the text of.
#[tactic(auto, using(cf_syntax::proofs::RefusalLaws::refused_from))]
fn accept(alloc: Global, bytes: &[u8]) -> Result<Checked, ScriptFault>
    requires { length bytes.now ≤ SCRIPT_BYTES }
    ensures { Accepts result bytes.now }
{
    match check_owners(read_script(alloc, bytes)?) {
        Ok(checked) => Ok(checked),
        Err(OwnFault::Refused(refusal)) => Err(ScriptFault::Refused(refusal)),
        Err(OwnFault::NoMemory) => Err(ScriptFault::NoMemory),
    }
}

// What the bytes of a file come to.
fn settle_bytes(alloc: Global, bytes: &[u8]) -> Result<Settled, AllocError>
    requires { length bytes.now ≤ SCRIPT_BYTES }
    ensures { IfOk result (λ s. SettlesBytes bytes.now s) }
{
    match accept(alloc, bytes) {
        Ok(checked) => {
            let ran = serial_run(alloc, checked, DEFAULT_LIMIT as u32, &mut StepClock)?;
            Ok(Settled::Ran(ran))
        }
        Err(ScriptFault::Refused(refusal)) => Ok(Settled::Refused(refusal)),
        Err(ScriptFault::NoMemory) => Err(AllocError),
    }
}

const TOO_LONG: Refusal = Refusal {
    line: 0,
    reason: Reason::TooLong,
};

/// Reads the file that the words name, and runs its script.
pub fn settle<S: Source>(
    alloc: Global,
    words: &[&str],
    source: &mut S,
) -> Result<Settled, AllocError>
    ensures { IfOk result (λ s. Settles (map (λ w. w.now) words.now)
        (told_by S.files S.left S.faults source.old) (told_by S.files S.left S.faults source.new) s) }
{
    let Some(name) = file_of(words) else {
        return Ok(Settled::Usage);
    };
    match read_file(alloc, source, name) {
        Ok(bytes) => settle_bytes(alloc, &bytes),
        Err(ReadAll::ReadFault) => Ok(Settled::ReadFault),
        Err(ReadAll::TooLong) => Ok(Settled::Refused(TOO_LONG)),
        Err(ReadAll::NoMemory) => Err(AllocError),
    }
}

// The exit status of an ending.
fn ending_status(ending: Ending) -> u8
    ensures { result ≡ status_by ending }
{
    match ending {
        Ending::Done => 0,
        Ending::Limit => 7,
        Ending::Full => 8,
        Ending::Stalled => 9,
    }
}

impl Settled {
    /// The exit status where all its lines are written.
    pub fn status(&self) -> u8
        ensures { result ≡ status_of self.now }
    {
        match self {
            Settled::Ran(ran) => ending_status(ran.ending),
            Settled::Usage => 2,
            Settled::Refused(_) => 3,
            Settled::ReadFault => 4,
        }
    }

    /// The journal of the run, where there is one.
    pub fn into_journal(self, alloc: Global) -> Vec<Entry>
        ensures { result.items ≡ entries_of self }
    {
        match self {
            Settled::Ran(ran) => ran.journal,
            _ => Vec::new(alloc),
        }
    }
}
