//! The reader of scripts and the owner check, each on its happy path. Whole scripts are cases of `cf_rows`.
use cf_ids::SCRIPT_BYTES;
use cf_owncheck::check_owners;
use cf_script::{Script, read_script};
use std::alloc::{AllocError, Global};
use std::process::Abort;
use std::test::Fail;

/// How many blocks a script has if it is owned, or its first fault.
fn ownership_of(alloc: Global, script: Script) -> Result<String, AllocError> {
    match check_owners(script) {
        Ok(checked) => format!(in alloc; "owned {}", checked.script().blocks().len()),
        Err(fault) => format!(in alloc; "not owned {fault:?}"),
    }
}

/// What becomes of a text.
fn outcome_of(alloc: Global, text: &[u8]) -> Result<String, AllocError> {
    if text.len() > SCRIPT_BYTES {
        return String::from_str(alloc, "too long");
    }
    match read_script(alloc, text) {
        Ok(script) => ownership_of(alloc, script),
        Err(fault) => format!(in alloc; "not read {fault:?}"),
    }
}

// Texts, and what becomes of each.
const TEXT_CASES: [(&[u8], &str, &str); 4] = [
    (b"cf 1\nsetup\nend\n", "owned 1", "an empty setup"),
    (
        b"cf 1\nsetup\nend\nthread t\nend\nhandler h\nend\n",
        "owned 3",
        "a thread and a handler",
    ),
    (
        b"cf 1\nsetup\nrelease a\nend\n",
        "not owned Refused(Refusal { line: 3, reason: Undefined })",
        "a release of nothing",
    ),
    (
        b"",
        "not read Refused(Refusal { line: 1, reason: Header })",
        "no bytes",
    ),
];

/// Stops a test whose text becomes something else.
fn assert_becomes(rt: &impl Abort, outcome: &str, gives: &str, about: &str) {
    assert!(rt; outcome == gives, "{about}: {outcome}, and not {gives}");
}

#[test]
fn texts_are_read(rt: HostRuntime) -> Result<(), Fail> {
    for (text, gives, about) in TEXT_CASES.iter() {
        let outcome = outcome_of(rt.alloc(), text)?;
        assert_becomes(&rt, outcome.as_str(), gives, about);
    }
    Ok(())
}
