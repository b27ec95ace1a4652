//! What statements do to contents.
ghost use Rattle.std.specs.Prelude.{◌≡◌, IfOk};
ghost use Rattle.cf_contents.specs.Deeds.{deed_of as deed_in};
ghost use Rattle.cf_plain.specs.Deeds.{deed_of};

use crate::content_deeds::content_deed;
use crate::deed::Deed;
use crate::making::deed_alone;
use crate::pair_deeds::{heap_deed, member_deed, pair_deed};
use crate::place_deeds::place_deed;
use crate::seen::Found;
use cf_syntax::{ClassLine, Statement};
use std::alloc::{AllocError as NoMemory, Global};

/// What a statement does, by the classes of its script and by the objects that it uses. Forms over run loops and
/// notices do nothing to contents.
pub fn deed_by(
    alloc: Global,
    classes: &[ClassLine],
    statement: &Statement,
    used: &Found,
) -> Result<Deed, NoMemory>
    ensures { let deed = deed_in classes.now statement.now used.now.first used.now.second used.now.third in
        IfOk result (λ d. deed_of d ≡ deed) }
{
    match statement {
        Statement::Show { .. }
        | Statement::NumAs { .. }
        | Statement::StrSub { .. }
        | Statement::StrAppend { .. }
        | Statement::StrInsert { .. }
        | Statement::StrDelete { .. }
        | Statement::StrReplace { .. }
        | Statement::DataAppend { .. }
        | Statement::DataReplace { .. }
        | Statement::DataDelete { .. } => content_deed(alloc, classes, statement, used),
        Statement::ArrAppend { .. }
        | Statement::ArrInsert { .. }
        | Statement::ArrSet { .. }
        | Statement::ArrRemove { .. }
        | Statement::ArrTake { .. }
        | Statement::FieldSet { .. }
        | Statement::FieldClear { .. }
        | Statement::FieldTake { .. } => Ok(place_deed(statement, used)),
        Statement::DictAdd { .. }
        | Statement::DictSet { .. }
        | Statement::DictReplace { .. }
        | Statement::DictRemove { .. }
        | Statement::DictTake { .. } => pair_deed(alloc, classes, statement, used),
        Statement::SetAdd { .. }
        | Statement::SetSet { .. }
        | Statement::SetReplace { .. }
        | Statement::SetRemove { .. }
        | Statement::SetCount { .. }
        | Statement::SetTake { .. } => member_deed(alloc, classes, statement, used),
        Statement::HeapAdd { .. } | Statement::HeapTake { .. } | Statement::HeapRemove { .. } => {
            heap_deed(alloc, classes, statement, used)
        }
        Statement::MakeString { .. }
        | Statement::MakeMstring { .. }
        | Statement::MakeData { .. }
        | Statement::MakeMdata { .. }
        | Statement::MakeNumber { .. }
        | Statement::MakeArray { .. }
        | Statement::MakeDict { .. }
        | Statement::MakeSet { .. }
        | Statement::MakeBag { .. }
        | Statement::MakeHeap { .. }
        | Statement::New { .. }
        | Statement::Retain { .. }
        | Statement::Release { .. } => deed_alone(alloc, classes, statement),
        Statement::MakeSource { .. }
        | Statement::MakeTimer { .. }
        | Statement::MakeObserver { .. }
        | Statement::Add { .. }
        | Statement::Drop { .. }
        | Statement::Common { .. }
        | Statement::Signal { .. }
        | Statement::Invalidate { .. }
        | Statement::Wake { .. }
        | Statement::Stop { .. }
        | Statement::Run { .. }
        | Statement::Observe { .. }
        | Statement::Forget { .. }
        | Statement::Post { .. } => Ok(Deed::skipping()),
    }
}
