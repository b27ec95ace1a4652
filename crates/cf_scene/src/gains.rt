//! What modes gain that become common ones.
ghost use Rattle.std.specs.Prelude.{◌≡◌, ◌<◌, ◌++◌, [], length, map, IfSome, vec_capacity};
ghost use Rattle.cf_syntax.specs.Numbered.{NamesMode, NamesThread};
ghost use Rattle.cf_model.specs.Deals.{common_deal, with_used};
ghost use Rattle.cf_loops.specs.Following.{InStates};
ghost use Rattle.cf_scene.specs.Gains.{GainsFit, HoldsCommon, shared_gains};

use crate::needs::thread_of;
use cf_ids::{ModeId, ObjId, ThreadId};
use cf_loops::Loops;
use cf_syntax::Statement;

/// Puts into a list the objects that a mode gains which a statement of a thread makes a common one; nothing for another
/// statement. It comes before the statement is dealt.
pub fn gain_common(loops: &Loops, t: ThreadId, statement: &Statement, gained: &mut Vec<ObjId>)
    requires thread { t < length loops.now }
    requires named { NamesThread (length loops.now) statement.now }
    requires room { GainsFit loops.now t statement.now (vec_capacity gained.old) }
    requires empty { gained.old.items ≡ [] }
    ensures gains { InStates loops.now (λ s st. NamesMode (length s.modes) statement.now
        → gained.new.items ≡ shared_gains st t statement.now) }
    ensures room { vec_capacity gained.new ≡ vec_capacity gained.old }
{
    if let Statement::Common { thread, mode } = statement {
        gain(loops, thread_of(t, thread), *mode, gained);
    }
}

/// The same of a mode of a loop, if there is that loop.
fn gain(loops: &Loops, thread: Option<ThreadId>, mode: ModeId, gained: &mut Vec<ObjId>)
    requires named { IfSome thread (λ w. w < length loops.now) }
    requires room { HoldsCommon loops.now thread (vec_capacity gained.old) }
    requires empty { gained.old.items ≡ [] }
    ensures gains { InStates loops.now (λ s st. mode < length s.modes → gained.new.items
        ≡ map (λ r. r.object) (with_used st.parts thread (λ w. common_deal st w mode)).enters) }
    ensures room { vec_capacity gained.new ≡ vec_capacity gained.old }
{
    if let Some(thread) = thread {
        loops.gained(thread, mode, gained);
    }
}
