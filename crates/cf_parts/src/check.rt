//! The assertion of the tests whose cases are tables.
use std::process::Abort;

/// Stops a test whose outcome is not what the case with this number gives. It stands once for all tests, since its
/// proof costs more than the rest of a test.
pub(crate) fn assert_gives(rt: &impl Abort, case: usize, outcome: &str, gives: &str, about: &str) {
    assert!(rt;
        outcome == gives,
        "case {case}, {about}: {outcome}, and not {gives}"
    );
}

/// The same where a case may have no outcome, as for want of memory.
pub(crate) fn assert_some(
    rt: &impl Abort,
    case: usize,
    outcome: &Option<String>,
    gives: &str,
    about: &str,
) {
    match outcome {
        Some(outcome) => assert_gives(rt, case, outcome.as_str(), gives, about),
        None => assert_gives(rt, case, "no outcome", gives, about),
    }
}
