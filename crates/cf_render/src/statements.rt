//! The statements that entries write.
ghost use Rattle.std.specs.Prelude.{◌≡◌};
ghost use Rattle.std.specs.Option.{option_copied, option_map};
ghost use Rattle.cf_next.specs.Actions.{site_of as site_of_action};
ghost use Rattle.cf_history.specs.Written.{statement_at, statement_of};
ghost use Rattle.cf_render.specs.Rows.{site_in};

use cf_ids::ObjId;
use cf_model::Action;
use cf_syntax::{Script, Statement};

/// Where the statement of an action stands, and the objects of the variables that it uses.
#[derive(Clone, Copy)]
pub(crate) struct Site<'a> {
    pub(crate) block: u16,
    pub(crate) number: u32,
    pub(crate) used: &'a [Option<ObjId>; 3],
}

/// The site of an action, if a statement writes it.
pub(crate) fn site_of(action: &Action) -> Option<Site<'_>>
    ensures { option_map site_in result ≡ site_of_action action.now }
{
    match action {
        Action::MakeString {
            block,
            number,
            used,
        }
        | Action::MakeMstring {
            block,
            number,
            used,
        }
        | Action::MakeData {
            block,
            number,
            used,
        }
        | Action::MakeMdata {
            block,
            number,
            used,
        }
        | Action::MakeNumber {
            block,
            number,
            used,
        }
        | Action::MakeArray {
            block,
            number,
            used,
        }
        | Action::MakeDict {
            block,
            number,
            used,
        }
        | Action::MakeSet {
            block,
            number,
            used,
        }
        | Action::MakeBag {
            block,
            number,
            used,
        }
        | Action::MakeHeap {
            block,
            number,
            used,
        }
        | Action::MakeSource {
            block,
            number,
            used,
        }
        | Action::MakeTimer {
            block,
            number,
            used,
        }
        | Action::MakeObserver {
            block,
            number,
            used,
        }
        | Action::New {
            block,
            number,
            used,
        }
        | Action::Retain {
            block,
            number,
            used,
        }
        | Action::Release {
            block,
            number,
            used,
        }
        | Action::Show {
            block,
            number,
            used,
        }
        | Action::StrAppend {
            block,
            number,
            used,
        }
        | Action::StrInsert {
            block,
            number,
            used,
        }
        | Action::StrDelete {
            block,
            number,
            used,
        }
        | Action::StrReplace {
            block,
            number,
            used,
        }
        | Action::StrSub {
            block,
            number,
            used,
        }
        | Action::DataAppend {
            block,
            number,
            used,
        }
        | Action::DataReplace {
            block,
            number,
            used,
        }
        | Action::DataDelete {
            block,
            number,
            used,
        }
        | Action::NumAs {
            block,
            number,
            used,
        }
        | Action::ArrAppend {
            block,
            number,
            used,
        }
        | Action::ArrInsert {
            block,
            number,
            used,
        }
        | Action::ArrSet {
            block,
            number,
            used,
        }
        | Action::ArrRemove {
            block,
            number,
            used,
        }
        | Action::ArrTake {
            block,
            number,
            used,
        }
        | Action::DictAdd {
            block,
            number,
            used,
        }
        | Action::DictSet {
            block,
            number,
            used,
        }
        | Action::DictReplace {
            block,
            number,
            used,
        }
        | Action::DictRemove {
            block,
            number,
            used,
        }
        | Action::DictTake {
            block,
            number,
            used,
        }
        | Action::SetAdd {
            block,
            number,
            used,
        }
        | Action::SetSet {
            block,
            number,
            used,
        }
        | Action::SetReplace {
            block,
            number,
            used,
        }
        | Action::SetRemove {
            block,
            number,
            used,
        }
        | Action::SetCount {
            block,
            number,
            used,
        }
        | Action::SetTake {
            block,
            number,
            used,
        }
        | Action::HeapAdd {
            block,
            number,
            used,
        }
        | Action::HeapTake {
            block,
            number,
            used,
        }
        | Action::HeapRemove {
            block,
            number,
            used,
        }
        | Action::FieldSet {
            block,
            number,
            used,
        }
        | Action::FieldClear {
            block,
            number,
            used,
        }
        | Action::FieldTake {
            block,
            number,
            used,
        }
        | Action::Add {
            block,
            number,
            used,
        }
        | Action::Drop {
            block,
            number,
            used,
        }
        | Action::Common {
            block,
            number,
            used,
        }
        | Action::Signal {
            block,
            number,
            used,
        }
        | Action::Invalidate {
            block,
            number,
            used,
        }
        | Action::Wake {
            block,
            number,
            used,
        }
        | Action::Stop {
            block,
            number,
            used,
        }
        | Action::Run {
            block,
            number,
            used,
        }
        | Action::Observe {
            block,
            number,
            used,
        }
        | Action::Forget {
            block,
            number,
            used,
        }
        | Action::Post {
            block,
            number,
            used,
        } => Some(Site {
            block: *block,
            number: *number,
            used,
        }),
        Action::Pack(..)
        | Action::Claim(_)
        | Action::Done
        | Action::Owed(_)
        | Action::DropSlot { .. }
        | Action::Note(_)
        | Action::Sources
        | Action::Timers
        | Action::Call { .. }
        | Action::Return
        | Action::Spend(_)
        | Action::Sleep
        | Action::Test
        | Action::Ran(_)
        | Action::Tick(_)
        | Action::Stall => None,
    }
}

/// The statement at a site, if the script has one there.
pub(crate) fn statement_at<'s>(script: &'s Script, site: &Site<'_>) -> Option<&'s Statement>
    ensures { option_copied result ≡ statement_at script.now (site_in site.now) }
{
    let block = script.block(usize::from(site.block))?;
    block.statements.as_slice().get(site.number as usize)
}

/// The statement that an action writes, if a statement writes it.
pub(crate) fn statement_of<'s>(script: &'s Script, action: &Action) -> Option<&'s Statement>
    ensures { option_copied result ≡ statement_of script.now action.now }
{
    match site_of(action) {
        Some(site) => statement_at(script, &site),
        None => None,
    }
}
