//! The work of a thread, the first item last.
ghost use Rattle.std.specs.Prelude.{◌≡◌, ◌+◌, ◌≤◌, ◌<◌, ◌++◌, ◌∷◌, [], map, length, vec_len, vec_capacity, option_to_list, Some, IfSome};
ghost use Rattle.std.specs.List.{All};
ghost use Rattle.std.specs.Option.{option_map};
ghost use Rattle.cf_ids.specs.Ranges.{IsObjectNumber};
ghost use Rattle.cf_next.specs.Stands.{release_of};
ghost use Rattle.cf_next.specs.Stacks.{last_of};
ghost use Rattle.cf_next.specs.Advance.{bodies_of, releases_of};
ghost use Rattle.cf_next.specs.Views.{work_of, works_of};
ghost use Rattle.cf_next.specs.Demands.{work_demand};
ghost use Rattle.cf_next.specs.Steps.{HasSlot, demand_of};
ghost use Rattle.cf_next.specs.WorkSteps.{item_demand, work_left_of, IsWorkLeft};

use crate::facts::Facts;
use crate::parts::Work;
use crate::step::Step;
use cf_ids::ObjId;

/// What an item of work demands, where it has something left; so many items are left after it.
fn item_step<'s, F: Facts>(facts: &F, item: &Work, left: usize) -> Option<Step<'s>>
    ensures demand { option_map demand_of result ≡ item_demand (F.known facts.now) (work_of item.now) }
    ensures left { IfSome result (λ x. work_left_of x ≡ Some left) }
    ensures slot { IfSome result (HasSlot (F.known facts.now)) }
{
    match item {
        Work::Release(object) => Some(Step::Owes {
            object: *object,
            left,
        }),
        Work::Spend(item) => Some(Step::Spends { item: *item, left }),
        Work::Slots { body, place } => match facts.slot(*body, *place as usize) {
            Some(object) => Some(Step::Drops {
                body: *body,
                place: *place,
                object,
                left,
            }),
            None => None,
        },
    }
}

/// What the first item of work, of those that stand last first, that has something left demands.
pub(crate) fn first_work<'s, F: Facts>(facts: &F, work: &[Work]) -> Option<Step<'s>>
    ensures demand { option_map demand_of result ≡ work_demand (F.known facts.now) (works_of work.now) }
    ensures left { IfSome result (λ x. IsWorkLeft (F.known facts.now) work.now (work_left_of x)) }
    ensures slot { IfSome result (HasSlot (F.known facts.now)) }
{
    let mut rest = work;
    while let Some((item, others)) = rest.split_last() {
        let step = item_step(facts, item, others.len());
        if step.is_some() {
            return step;
        }
        rest = others;
    }
    None
}

/// Keeps the last `left` items, which are those that are not passed over or done.
pub(crate) fn keep_work(work: &mut Vec<Work>, left: usize)
    requires { left ≤ vec_len work.old }
    ensures items { works_of work.new.items ≡ last_of left (works_of work.old.items) }
    ensures len { vec_len work.new ≡ left }
    ensures capacity { vec_capacity work.new ≡ vec_capacity work.old }
{
    work.truncate(left);
}

/// Puts an item in front.
pub(crate) fn put_first(work: &mut Vec<Work>, item: Work)
    requires { vec_len work.old < vec_capacity work.old }
    ensures items { works_of work.new.items ≡ work_of item ∷ works_of work.old.items }
    ensures len { vec_len work.new ≡ vec_len work.old + 1 }
    ensures capacity { vec_capacity work.new ≡ vec_capacity work.old }
{
    work.push_reserved(item);
}

/// Puts the release of an object in front, where there is one.
pub(crate) fn owe_one(work: &mut Vec<Work>, object: Option<ObjId>)
    requires { vec_len work.old < vec_capacity work.old }
    ensures items { works_of work.new.items ≡ releases_of object ++ works_of work.old.items }
    ensures len { vec_len work.new ≤ vec_len work.old + 1 }
    ensures capacity { vec_capacity work.new ≡ vec_capacity work.old }
{
    if let Some(object) = object {
        put_first(work, Work::Release(object));
    }
}

/// Puts the slots of a body in front, where there is one.
pub(crate) fn put_body(work: &mut Vec<Work>, body: Option<ObjId>)
    requires { vec_len work.old < vec_capacity work.old }
    ensures { works_of work.new.items ≡ bodies_of (option_to_list body) ++ works_of work.old.items }
{
    if let Some(body) = body {
        put_first(work, Work::Slots { body, place: 0 });
    }
}

/// Puts the releases of what was given out in front, in order.
pub(crate) fn owe(work: &mut Vec<Work>, list: &[u32])
    requires room { vec_len work.old + length list.now ≤ vec_capacity work.old }
    requires objects { All IsObjectNumber list.now }
    ensures items { works_of work.new.items ≡ map release_of list.now ++ works_of work.old.items }
    ensures len { vec_len work.new ≡ vec_len work.old + length list.now }
    ensures capacity { vec_capacity work.new ≡ vec_capacity work.old }
{
    let mut rest = list;
    while let Some((last, others)) = rest.split_last() {
        put_first(work, Work::Release(ObjId(*last)));
        rest = others;
    }
}
