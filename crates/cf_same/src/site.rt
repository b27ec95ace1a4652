//! Where the action of a statement stands, and what it uses.
ghost use Rattle.std.specs.Prelude.{◌≡◌, ◌↔◌, true};
ghost use Rattle.std.specs.Option.{option_copied, option_map};
ghost use Rattle.cf_next.specs.Actions.{Site, site_of};

use cf_ids::ObjId;
use cf_next::Action;
use std::marker::Model;

/// Where an action of a statement stands, and the objects that it uses.
#[derive(Drop)]
pub(crate) struct Place<'a> {
    block: u16,
    number: u32,
    used: &'a [Option<ObjId>; 3],
}

impl<'a> Model for Place<'a> {
    ghost use Rattle.cf_next.specs.Actions.{Site};

    ghost Value = { Site };

    ghost view = { λ s. record { block = s.block; number = s.number; used = s.used.now } };
}

/// The site of an action, if a statement writes it.
pub(crate) fn site_of(action: &Action) -> Option<Place<'_>>
    ensures { result ≡ site_of action.now }
{
    match action {
        Action::MakeString {
            block,
            number,
            used,
        }
        | Action::MakeMstring {
            block,
            number,
            used,
        }
        | Action::MakeData {
            block,
            number,
            used,
        }
        | Action::MakeMdata {
            block,
            number,
            used,
        }
        | Action::MakeNumber {
            block,
            number,
            used,
        }
        | Action::New {
            block,
            number,
            used,
        }
        | Action::MakeArray {
            block,
            number,
            used,
        }
        | Action::MakeDict {
            block,
            number,
            used,
        }
        | Action::MakeSet {
            block,
            number,
            used,
        }
        | Action::MakeBag {
            block,
            number,
            used,
        }
        | Action::MakeHeap {
            block,
            number,
            used,
        }
        | Action::MakeSource {
            block,
            number,
            used,
        }
        | Action::MakeTimer {
            block,
            number,
            used,
        }
        | Action::MakeObserver {
            block,
            number,
            used,
        }
        | Action::Retain {
            block,
            number,
            used,
        }
        | Action::Release {
            block,
            number,
            used,
        }
        | Action::Show {
            block,
            number,
            used,
        }
        | Action::StrAppend {
            block,
            number,
            used,
        }
        | Action::StrInsert {
            block,
            number,
            used,
        }
        | Action::StrDelete {
            block,
            number,
            used,
        }
        | Action::StrReplace {
            block,
            number,
            used,
        }
        | Action::StrSub {
            block,
            number,
            used,
        }
        | Action::DataAppend {
            block,
            number,
            used,
        }
        | Action::DataReplace {
            block,
            number,
            used,
        }
        | Action::DataDelete {
            block,
            number,
            used,
        }
        | Action::NumAs {
            block,
            number,
            used,
        }
        | Action::ArrAppend {
            block,
            number,
            used,
        }
        | Action::ArrInsert {
            block,
            number,
            used,
        }
        | Action::ArrSet {
            block,
            number,
            used,
        }
        | Action::ArrRemove {
            block,
            number,
            used,
        }
        | Action::ArrTake {
            block,
            number,
            used,
        }
        | Action::DictAdd {
            block,
            number,
            used,
        }
        | Action::DictSet {
            block,
            number,
            used,
        }
        | Action::DictReplace {
            block,
            number,
            used,
        }
        | Action::DictRemove {
            block,
            number,
            used,
        }
        | Action::DictTake {
            block,
            number,
            used,
        }
        | Action::SetAdd {
            block,
            number,
            used,
        }
        | Action::SetSet {
            block,
            number,
            used,
        }
        | Action::SetReplace {
            block,
            number,
            used,
        }
        | Action::SetRemove {
            block,
            number,
            used,
        }
        | Action::SetCount {
            block,
            number,
            used,
        }
        | Action::SetTake {
            block,
            number,
            used,
        }
        | Action::HeapAdd {
            block,
            number,
            used,
        }
        | Action::HeapTake {
            block,
            number,
            used,
        }
        | Action::HeapRemove {
            block,
            number,
            used,
        }
        | Action::FieldSet {
            block,
            number,
            used,
        }
        | Action::FieldClear {
            block,
            number,
            used,
        }
        | Action::FieldTake {
            block,
            number,
            used,
        }
        | Action::Add {
            block,
            number,
            used,
        }
        | Action::Drop {
            block,
            number,
            used,
        }
        | Action::Common {
            block,
            number,
            used,
        }
        | Action::Signal {
            block,
            number,
            used,
        }
        | Action::Invalidate {
            block,
            number,
            used,
        }
        | Action::Wake {
            block,
            number,
            used,
        }
        | Action::Stop {
            block,
            number,
            used,
        }
        | Action::Run {
            block,
            number,
            used,
        }
        | Action::Observe {
            block,
            number,
            used,
        }
        | Action::Forget {
            block,
            number,
            used,
        }
        | Action::Post {
            block,
            number,
            used,
        } => Some(Place {
            block: *block,
            number: *number,
            used,
        }),
        Action::Pack(_, _)
        | Action::Claim(_)
        | Action::Done
        | Action::Owed(_)
        | Action::DropSlot { .. }
        | Action::Note(_)
        | Action::Sources
        | Action::Timers
        | Action::Call { .. }
        | Action::Return
        | Action::Spend(_)
        | Action::Sleep
        | Action::Test
        | Action::Ran(_)
        | Action::Tick(_)
        | Action::Stall => None,
    }
}

/// Whether the objects that are used are the same.
fn is_same_used(a: &[Option<ObjId>; 3], b: &[Option<ObjId>; 3]) -> bool
    ensures { (result ≡ true) ↔ (a.now ≡ b.now) }
{
    let [first, second, third] = *a;
    let [other_first, other_second, other_third] = *b;
    first == other_first && second == other_second && third == other_third
}

/// Whether two places are the same.
fn is_same_place(a: &Place, b: &Place) -> bool
    ensures { (result ≡ true) ↔ (a.now ≡ b.now) }
{
    a.block == b.block && a.number == b.number && is_same_used(a.used, b.used)
}

/// Whether two sites are the same.
pub(crate) fn is_same_site(a: &Option<Place>, b: &Option<Place>) -> bool
    ensures { (result ≡ true) ↔ (a.now ≡ b.now) }
{
    match (a, b) {
        (Some(a), Some(b)) => is_same_place(a, b),
        (None, None) => true,
        _ => false,
    }
}

/// The objects that an action of a statement uses.
pub fn used_of(action: &Action) -> Option<&[Option<ObjId>; 3]>
    ensures { option_copied result ≡ option_map (λ (s : Site). s.used) (site_of action.now) }
{
    match site_of(action) {
        Some(place) => Some(place.used),
        None => None,
    }
}
