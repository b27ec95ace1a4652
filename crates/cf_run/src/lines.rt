//! The line of a refusal.
ghost use Rattle.std.specs.Prelude.{◌≡◌, IfOk};
ghost use Rattle.std.specs.String.{string_bytes};
ghost use Rattle.cf_run.specs.Outcomes.{reason_word as word_of, refusal_text};

use cf_script::{Reason, Refusal};
use std::alloc::{AllocError, Global};

// The word of a reason.
fn reason_word(reason: Reason) -> &'static str
    ensures { result.now ≡ word_of reason }
{
    match reason {
        Reason::TooLong => "TooLong",
        Reason::Unread => "Unread",
        Reason::NotUtf8 => "NotUtf8",
        Reason::Text => "Text",
        Reason::Header => "Header",
        Reason::Word => "Word",
        Reason::Order => "Order",
        Reason::Kind => "Kind",
        Reason::Arity => "Arity",
        Reason::Name => "Name",
        Reason::Number => "Number",
        Reason::Hex => "Hex",
        Reason::Twice => "Twice",
        Reason::TooMany => "TooMany",
        Reason::Open => "Open",
        Reason::NoSetup => "NoSetup",
        Reason::Undefined => "Undefined",
        Reason::Redefined => "Redefined",
        Reason::Unowned => "Unowned",
        Reason::Unbalanced => "Unbalanced",
    }
}

/// The line of a refusal.
pub fn refusal_line(alloc: Global, refusal: Refusal) -> Result<String, AllocError>
    ensures { IfOk result (λ l. string_bytes l ≡ refusal_text refusal) }
{
    let line = refusal.line;
    let reason = reason_word(refusal.reason);
    format!(in alloc; "refused line {line} {reason}\n")
}
