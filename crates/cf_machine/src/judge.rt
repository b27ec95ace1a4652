//! Whether a journal is legal.
ghost use Rattle.std.specs.Prelude.{◌≡◌, ◌≤◌, ◌↔◌, true, length, IfOk};
ghost use Rattle.cf_ids.specs.declared.limits.TheConstants.{LARGEST_LIMIT};
ghost use Rattle.cf_model.specs.Finals.{FinalsFit};
ghost use Rattle.cf_model.specs.Journals.{IsLegal};
ghost use Rattle.cf_history.specs.Callouts.{CalloutsFit};

use crate::enter::enter_before;
use cf_model::Entry;
use cf_state::start;
use cf_syntax::Script;
use std::alloc::{AllocError as NoMemory, Global};

/// Whether a journal of a script is legal, for every script, owned or not; where it is, callouts and finals fit.
pub fn replays(alloc: Global, script: &Script, entries: &[Entry]) -> Result<bool, NoMemory>
    requires short { length entries.now ≤ LARGEST_LIMIT }
    ensures legal { IfOk result (λ legal. (legal ≡ true) ↔ IsLegal script.now entries.now) }
    ensures callouts { IfOk result (λ legal. legal ≡ true → CalloutsFit script.now entries.now) }
    ensures finals { IfOk result (λ legal. legal ≡ true → FinalsFit script.now entries.now) }
{
    is_legal(alloc, script, entries)
}

/// Whether each entry is legal after those before it.
fn is_legal(alloc: Global, script: &Script, entries: &[Entry]) -> Result<bool, NoMemory>
    requires short { length entries.now ≤ LARGEST_LIMIT }
    ensures { IfOk result (λ legal. (legal ≡ true) ↔ IsLegal script.now entries.now) }
{
    let mut state = start(alloc, script)?;
    let mut rest = entries;
    while let Some((entry, others)) = rest.split_first() {
        if !enter_before(alloc, &mut state, script, entry, others)? {
            return Ok(false);
        }
        rest = others;
    }
    Ok(true)
}
