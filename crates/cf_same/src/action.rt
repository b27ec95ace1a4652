//! Whether two actions are the same.
ghost use Rattle.std.specs.Prelude.{◌≡◌, ◌↔◌, true};
ghost use Rattle.cf_same.specs.Alike.{named, number_of, rest_of};

use crate::site::{is_same_site, site_of};
use cf_ids::ObjId;
use cf_next::Action;
use std::marker::Model;

/// What an action names that no statement writes.
#[derive(Drop)]
struct Rest {
    first: u64,
    second: u64,
    third: u64,
    x: Option<ObjId>,
    y: Option<ObjId>,
}

impl Model for Rest {
    ghost use Rattle.cf_same.specs.Alike.{Rest as Named};

    ghost Value = { Named };

    ghost view = { λ r. record { first = r.first; second = r.second; third = r.third; x = r.x; y = r.y } };
}

/// The number of an action among all.
fn number_of(action: &Action) -> u8
    ensures { result ≡ number_of action.now }
{
    match action {
        Action::MakeString { .. } => 0,
        Action::MakeMstring { .. } => 1,
        Action::MakeData { .. } => 2,
        Action::MakeMdata { .. } => 3,
        Action::MakeNumber { .. } => 4,
        Action::New { .. } => 5,
        Action::MakeArray { .. } => 6,
        Action::MakeDict { .. } => 7,
        Action::MakeSet { .. } => 8,
        Action::MakeBag { .. } => 9,
        Action::MakeHeap { .. } => 10,
        Action::MakeSource { .. } => 11,
        Action::MakeTimer { .. } => 12,
        Action::MakeObserver { .. } => 13,
        Action::Retain { .. } => 14,
        Action::Release { .. } => 15,
        Action::Show { .. } => 16,
        Action::StrAppend { .. } => 17,
        Action::StrInsert { .. } => 18,
        Action::StrDelete { .. } => 19,
        Action::StrReplace { .. } => 20,
        Action::StrSub { .. } => 21,
        Action::DataAppend { .. } => 22,
        Action::DataReplace { .. } => 23,
        Action::DataDelete { .. } => 24,
        Action::NumAs { .. } => 25,
        Action::ArrAppend { .. } => 26,
        Action::ArrInsert { .. } => 27,
        Action::ArrSet { .. } => 28,
        Action::ArrRemove { .. } => 29,
        Action::ArrTake { .. } => 30,
        Action::DictAdd { .. } => 31,
        Action::DictSet { .. } => 32,
        Action::DictReplace { .. } => 33,
        Action::DictRemove { .. } => 34,
        Action::DictTake { .. } => 35,
        Action::SetAdd { .. } => 36,
        Action::SetSet { .. } => 37,
        Action::SetReplace { .. } => 38,
        Action::SetRemove { .. } => 39,
        Action::SetCount { .. } => 40,
        Action::SetTake { .. } => 41,
        Action::HeapAdd { .. } => 42,
        Action::HeapTake { .. } => 43,
        Action::HeapRemove { .. } => 44,
        Action::FieldSet { .. } => 45,
        Action::FieldClear { .. } => 46,
        Action::FieldTake { .. } => 47,
        Action::Add { .. } => 48,
        Action::Drop { .. } => 49,
        Action::Common { .. } => 50,
        Action::Signal { .. } => 51,
        Action::Invalidate { .. } => 52,
        Action::Wake { .. } => 53,
        Action::Stop { .. } => 54,
        Action::Run { .. } => 55,
        Action::Observe { .. } => 56,
        Action::Forget { .. } => 57,
        Action::Post { .. } => 58,
        Action::Pack(_, _) => 59,
        Action::Claim(_) => 60,
        Action::Done => 61,
        Action::Owed(_) => 62,
        Action::DropSlot { .. } => 63,
        Action::Note(_) => 64,
        Action::Sources => 65,
        Action::Timers => 66,
        Action::Call { .. } => 67,
        Action::Return => 68,
        Action::Spend(_) => 69,
        Action::Sleep => 70,
        Action::Test => 71,
        Action::Ran(_) => 72,
        Action::Tick(_) => 73,
        Action::Stall => 74,
    }
}

/// What is named.
fn named(first: u64, second: u64, third: u64, x: Option<ObjId>, y: Option<ObjId>) -> Rest
    ensures { result ≡ named first second third x y }
{
    Rest {
        first,
        second,
        third,
        x,
        y,
    }
}

/// What an action names beside its site.
fn rest_of(action: &Action) -> Rest
    ensures { result ≡ rest_of action.now }
{
    match action {
        Action::Pack(thread, object) => named(u64::from(thread.0), 0, 0, *object, None),
        Action::Claim(object) => named(0, 0, 0, *object, None),
        Action::Owed(object) => named(u64::from(object.0), 0, 0, None, None),
        Action::DropSlot {
            body,
            place,
            object,
        } => named(
            u64::from(body.0),
            u64::from(*place),
            u64::from(object.0),
            None,
            None,
        ),
        Action::Note(activity) => named(u64::from(*activity), 0, 0, None, None),
        Action::Call {
            handler,
            item,
            info,
        } => named(u64::from(handler.0), 0, 0, *item, *info),
        Action::Spend(item) => named(u64::from(item.0), 0, 0, None, None),
        Action::Ran(mode) => named(u64::from(mode.0), 0, 0, None, None),
        Action::Tick(time) => named(*time, 0, 0, None, None),
        _ => named(0, 0, 0, None, None),
    }
}

/// Whether what is named is the same.
fn is_same_rest(a: &Rest, b: &Rest) -> bool
    ensures { (result ≡ true) ↔ (a.now ≡ b.now) }
{
    a.first == b.first && a.second == b.second && a.third == b.third && a.x == b.x && a.y == b.y
}

/// Whether two actions are the same.
pub fn is_same_action(a: &Action, b: &Action) -> bool
    ensures { (result ≡ true) ↔ (a.now ≡ b.now) }
{
    number_of(a) == number_of(b)
        && is_same_site(&site_of(a), &site_of(b))
        && is_same_rest(&rest_of(a), &rest_of(b))
}
