//! What statements do.
ghost use Rattle.std.specs.Prelude.{◌≡◌, map, IfOk};
ghost use Rattle.cf_contents.specs.Deeds.{deed_of};
ghost use Rattle.cf_store.specs.Applies.{Does};

use crate::content_plans::content_plan;
use crate::heap_plans::heap_plan;
use crate::making::plan_alone;
use crate::member_plans::member_plan;
use crate::pair_plans::pair_plan;
use crate::place_plans::place_plan;
use crate::plan::Plan;
use crate::seen::Found;
use cf_syntax::{ClassLine, Statement};
use std::alloc::{AllocError as NoMemory, Global};

/// What a statement does, by the objects that it uses.
pub(crate) fn plan_of(
    alloc: Global,
    classes: &[ClassLine],
    statement: &Statement,
    used: &Found,
) -> Result<Plan, NoMemory>
    ensures { let deed = deed_of classes.now statement.now used.now.first used.now.second used.now.third in
        IfOk result (λ d. Does deed used.now.first d) }
{
    match statement {
        Statement::Show { .. }
        | Statement::NumAs { .. }
        | Statement::StrSub { .. }
        | Statement::StrAppend { .. }
        | Statement::StrInsert { .. }
        | Statement::StrDelete { .. }
        | Statement::StrReplace { .. }
        | Statement::DataAppend { .. }
        | Statement::DataReplace { .. }
        | Statement::DataDelete { .. } => content_plan(alloc, classes, statement, used),
        Statement::ArrAppend { .. }
        | Statement::ArrInsert { .. }
        | Statement::ArrSet { .. }
        | Statement::ArrRemove { .. }
        | Statement::ArrTake { .. }
        | Statement::FieldSet { .. }
        | Statement::FieldClear { .. }
        | Statement::FieldTake { .. } => Ok(place_plan(statement, used)),
        Statement::DictAdd { .. }
        | Statement::DictSet { .. }
        | Statement::DictReplace { .. }
        | Statement::DictRemove { .. }
        | Statement::DictTake { .. } => pair_plan(alloc, classes, statement, used),
        Statement::SetAdd { .. }
        | Statement::SetSet { .. }
        | Statement::SetReplace { .. }
        | Statement::SetRemove { .. }
        | Statement::SetCount { .. }
        | Statement::SetTake { .. } => member_plan(alloc, classes, statement, used),
        Statement::HeapAdd { .. } | Statement::HeapTake { .. } | Statement::HeapRemove { .. } => {
            heap_plan(alloc, classes, statement, used)
        }
        Statement::MakeString { .. }
        | Statement::MakeMstring { .. }
        | Statement::MakeData { .. }
        | Statement::MakeMdata { .. }
        | Statement::MakeNumber { .. }
        | Statement::MakeArray { .. }
        | Statement::MakeDict { .. }
        | Statement::MakeSet { .. }
        | Statement::MakeBag { .. }
        | Statement::MakeHeap { .. }
        | Statement::New { .. }
        | Statement::Retain { .. }
        | Statement::Release { .. } => plan_alone(alloc, classes, statement),
        Statement::MakeSource { .. }
        | Statement::MakeTimer { .. }
        | Statement::MakeObserver { .. }
        | Statement::Add { .. }
        | Statement::Drop { .. }
        | Statement::Common { .. }
        | Statement::Signal { .. }
        | Statement::Invalidate { .. }
        | Statement::Wake { .. }
        | Statement::Stop { .. }
        | Statement::Run { .. }
        | Statement::Observe { .. }
        | Statement::Forget { .. }
        | Statement::Post { .. } => Ok(Plan::skipping()),
    }
}
