//! What a statement does with variables, where its words are variables that it uses. Nearly all statements of a long
//! script are of these, and their words need no list.
ghost use Rattle.cf_owncheck.specs.Uses.{IsUseOf};

use cf_ids::VarId;
use cf_syntax::Statement;

/// The variables that a statement uses, where it names nothing else, in the order of its words.
#[derive(Clone, Copy)]
pub(crate) enum UseOf {
    /// It retains one.
    Retains(VarId),
    /// It releases one.
    Releases(VarId),
    /// It uses one, and changes no count.
    One(VarId),
    /// It uses two, and changes no count.
    Two(VarId, VarId),
    /// It uses three, and changes no count.
    Three(VarId, VarId, VarId),
    /// It may name something else.
    Other,
}

/// What a statement uses.
#[inline(always)]
pub(crate) fn use_of(statement: &Statement) -> UseOf
    ensures { IsUseOf result statement.now }
{
    match statement {
        Statement::Retain { variable } => UseOf::Retains(*variable),
        Statement::Release { variable } => UseOf::Releases(*variable),
        Statement::Show { variable }
        | Statement::StrInsert { variable, .. }
        | Statement::StrDelete { variable, .. }
        | Statement::StrReplace { variable, .. }
        | Statement::DataAppend { variable, .. }
        | Statement::DataReplace { variable, .. }
        | Statement::DataDelete { variable, .. }
        | Statement::NumAs { variable, .. }
        | Statement::ArrRemove { variable, .. }
        | Statement::HeapRemove { variable }
        | Statement::FieldClear { variable, .. } => UseOf::One(*variable),
        Statement::ArrAppend { variable, element }
        | Statement::ArrInsert {
            variable,
            element,
            ..
        }
        | Statement::ArrSet {
            variable,
            element,
            ..
        }
        | Statement::SetAdd { variable, element }
        | Statement::SetSet { variable, element }
        | Statement::SetReplace { variable, element }
        | Statement::SetRemove { variable, element }
        | Statement::SetCount { variable, element }
        | Statement::HeapAdd { variable, element }
        | Statement::FieldSet {
            variable,
            element,
            ..
        } => UseOf::Two(*variable, *element),
        Statement::StrAppend { variable, other } => UseOf::Two(*variable, *other),
        Statement::DictRemove { variable, key } => UseOf::Two(*variable, *key),
        Statement::DictAdd {
            variable,
            key,
            value,
        }
        | Statement::DictSet {
            variable,
            key,
            value,
        }
        | Statement::DictReplace {
            variable,
            key,
            value,
        } => UseOf::Three(*variable, *key, *value),
        _ => UseOf::Other,
    }
}
