//! Tables of many rows: how often keys are compared, keys whose hashes are all the same, and rows that go from the
//! front one by one.
ghost use Rattle.std.specs.Prelude.{◌≡◌, true, nat_eq};
ghost use Rattle.std.specs.Ordering.{nat_cmp};
ghost use Rattle.std.specs.Cmp.{nat_eq_equiv, nat_cmp_total};
ghost use Rattle.std.specs.Cmp.Rules.{comparing};
ghost use Rattle.std.proofs.Common.{rules, arith};
ghost use Rattle.std.proofs.lemmas.Bool.Decides.{nat_tests};

use crate::coins::{ByKey, Coin};
use cf_basichash::Rows;
use cf_callbacks::{Callbacks, Steps};
use std::alloc::{AllocError, Global};
use std::cell::Cell;
use std::cmp::Ordering;
use std::sync::ledger::Ledger;
use std::test::Fail;

/// How many keys a large table has.
const KEYS: u32 = 10_000;

/// How many comparisons a search may make at the most.
const COMPARISONS: u32 = 8;

/// Numbers compared by value, each its own hash; counts the calls of `equal`.
#[derive(Drop)]
struct ByValue<'a> {
    calls: &'a Cell<u32>,
}

impl<'a> Callbacks<u32> for ByValue<'a> {
    ghost keeps = { λ _. true };

    ghost same = { λ _. nat_eq };

    ghost hash_of = { λ _ n. n };

    ghost rank = { λ _. nat_cmp };

    ghost equivalence = { λ _. nat_eq_equiv };

    ghost equal_hashes = { λ _ a b same. Prim.grind (arith, nat_tests) };

    ghost total = { λ _. nat_cmp_total };

    ghost equal_ranks = { Prim.search (comparing, rules) };

    fn retains(&self) -> bool {
        true
    }

    fn equal(&self, a: &u32, b: &u32) -> bool {
        self.calls.set(self.calls.get().wrapping_add(1));
        *a == *b
    }

    fn hash(&self, a: &u32) -> u64 {
        u64::from(*a)
    }

    fn order<L: Ledger>(&self, a: &u32, b: &u32, steps: &mut Steps<L>) -> Ordering {
        steps.tick();
        a.cmp(b)
    }
}

/// A table of the numbers below `KEYS`, or `None` if one is refused.
fn large<'a>(
    alloc: Global,
    calls: &'a Cell<u32>,
) -> Result<Option<Rows<u32, u8, ByValue<'a>>>, AllocError> {
    let mut rows = Rows::new(alloc, ByValue { calls });
    for key in 0..KEYS {
        rows.reserve(1)?;
        if rows.add(key, 0).is_err() {
            return Ok(None);
        }
    }
    Ok(Some(rows))
}

/// Whether a search finds a place or nothing, as it should, with few comparisons.
fn finds(rows: &Rows<u32, u8, ByValue>, calls: &Cell<u32>, key: u32, place: Option<usize>) -> bool {
    calls.set(0);
    rows.find(&key) == place && calls.get() <= COMPARISONS
}

/// Whether each key below `KEYS` is found at its place, and none of as many above, with few comparisons each.
fn finds_each(alloc: Global, calls: &Cell<u32>) -> Result<bool, AllocError> {
    let Some(rows) = large(alloc, calls)? else {
        return Ok(false);
    };
    for key in 0..KEYS {
        if !finds(&rows, calls, key, Some(key as usize)) || !finds(&rows, calls, key + KEYS, None) {
            return Ok(false);
        }
    }
    Ok(true)
}

/// Whether the keys go out from the front one by one, and each that follows is found at the front then.
fn goes_from_the_front(alloc: Global, calls: &Cell<u32>) -> Result<bool, AllocError> {
    let Some(mut rows) = large(alloc, calls)? else {
        return Ok(false);
    };
    for key in 0..KEYS {
        if !finds(&rows, calls, key, Some(0)) {
            return Ok(false);
        }
        match rows.remove(0) {
            Some((first, _)) if first == key => {}
            _ => return Ok(false),
        }
        if !finds(&rows, calls, key, None) {
            return Ok(false);
        }
    }
    Ok(rows.count() == 0)
}

/// Whether the keys are found at their places, and there are no others.
fn finds_all(rows: &Rows<Coin, u8, ByKey>, keys: &[u8]) -> bool {
    for (place, key) in keys.iter().enumerate() {
        if rows.find(&Coin {
            number: 0,
            key: *key,
        }) != Some(place)
        {
            return false;
        }
    }
    rows.count() == keys.len()
}

/// Takes out the row at a place of a table and of the list of its keys; answers whether both had the same key there.
fn take_out(rows: &mut Rows<Coin, u8, ByKey>, keys: &mut Vec<u8>, place: usize) -> bool {
    if keys.len() <= place {
        return false;
    }
    let key = keys.remove(place);
    match rows.remove(place) {
        Some((coin, _)) => coin.key == key && rows.find(&coin).is_none(),
        None => false,
    }
}

/// Whether 200 keys whose hashes are all 7 are added, found and removed as in a list of them.
fn keeps_equal_hashes(alloc: Global) -> Result<bool, AllocError> {
    let mut rows = Rows::new(alloc, ByKey);
    let mut keys = Vec::new(alloc);
    for key in 0..200u8 {
        rows.reserve(1)?;
        if rows.add(Coin { number: key, key }, key).is_err() {
            return Ok(false);
        }
        keys.push(key)?;
    }
    for step in 0..200usize {
        if !finds_all(&rows, &keys) {
            return Ok(false);
        }
        let count = rows.count();
        if count == 0 || !take_out(&mut rows, &mut keys, step * 7 % count) {
            return Ok(false);
        }
    }
    Ok(rows.count() == 0)
}

#[test]
fn few_comparisons(rt: HostRuntime) -> Result<(), Fail> {
    let calls = Cell::new(0);
    assert_eq!(rt;
        finds_each(rt.alloc(), &calls)?,
        true,
        "10,000 keys are found, and no others"
    );
    Ok(())
}

#[test]
fn equal_hashes(rt: HostRuntime) -> Result<(), Fail> {
    assert_eq!(rt;
        keeps_equal_hashes(rt.alloc())?,
        true,
        "200 keys with one hash"
    );
    Ok(())
}

#[test]
fn removals(rt: HostRuntime) -> Result<(), Fail> {
    let calls = Cell::new(0);
    assert_eq!(rt;
        goes_from_the_front(rt.alloc(), &calls)?,
        true,
        "10,000 keys go from the front"
    );
    Ok(())
}
