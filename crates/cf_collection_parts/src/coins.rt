//! Elements that are equal if their keys are, and their callbacks.
ghost use Rattle.std.specs.Prelude.{◌≡◌, ◌<◌, true, nat_eq};
ghost use Rattle.std.specs.Ordering.{nat_cmp, on};
ghost use Rattle.std.specs.Cmp.{nat_eq_equiv, nat_cmp_total, on_equiv, on_total};
ghost use Rattle.std.specs.Cmp.Rules.{comparing};
ghost use Rattle.std.proofs.Common.{rules, refl};

use cf_callbacks::{Callbacks, Steps};
use std::cmp::Ordering;
use std::marker::Brand;
use std::sync::ledger::{Blank, Ledger};

/// Coins are equal if their keys are, and their numbers tell them apart.
#[derive(Clone, Copy)]
pub struct Coin {
    pub number: u8,
    pub key: u8,
}

/// Coins compared by their keys alone.
#[derive(Clone, Copy)]
pub struct ByKey;

impl Callbacks<Coin> for ByKey {
    ghost keeps = { λ _. true };

    ghost same = { λ _. on (λ coin. coin.key) nat_eq };

    ghost hash_of = { λ _ _. 7 };

    ghost rank = { λ _. on (λ coin. coin.key) nat_cmp };

    ghost equivalence = { λ _. on_equiv (λ coin. coin.key) nat_eq_equiv };

    ghost equal_hashes = { λ _ _ _ _. refl };

    ghost total = { λ _. on_total (λ coin. coin.key) nat_cmp_total };

    ghost equal_ranks = { Prim.search (comparing, rules) };

    fn retains(&self) -> bool {
        true
    }

    fn equal(&self, a: &Coin, b: &Coin) -> bool {
        a.key == b.key
    }

    fn hash(&self, _a: &Coin) -> u64 {
        7
    }

    fn order<L: Ledger>(&self, a: &Coin, b: &Coin, steps: &mut Steps<L>) -> Ordering {
        steps.tick();
        a.key.cmp(&b.key)
    }
}

/// What an answer without a coin is written as in a table of cases.
pub const NOTHING: u16 = 999;

/// What is added to the number of a coin that is refused.
pub const REFUSED: u16 = 1000;

/// The number of a coin that is given back.
pub fn number(coin: Option<Coin>) -> u16 {
    coin.map_or(NOTHING, |coin| u16::from(coin.number))
}

/// The number of a coin that is refused.
pub fn refused(coin: Coin) -> u16 {
    REFUSED + u16::from(coin.number)
}

/// A place as it is written in a table of cases.
pub fn place(found: Option<usize>) -> u16 {
    match found {
        Some(0) => 0,
        Some(1) => 1,
        Some(2) => 2,
        Some(_) => REFUSED,
        None => NOTHING,
    }
}

fn orders<L: Ledger, C: Callbacks<Coin>>(blank: Blank, c: &C, a: &Coin, b: &Coin) -> Ordering
    requires name { blank.name ≡ L.name }
    requires parts { blank.parts ≡ L.parts }
    requires some { 0 < blank.parts }
{
    let mut steps = Steps::<L>::new(blank);
    c.order(a, b, &mut steps)
}

fn compares<C: Callbacks<Coin>>(c: &C, a: &Coin, b: &Coin) -> (bool, bool, bool) {
    (c.retains(), c.equal(a, b), c.hash(a) == c.hash(b))
}

fn ordered(a: &Coin, b: &Coin) -> Ordering {
    orders::<Brand, ByKey>(Blank::new(1), &ByKey, a, b)
}

#[test]
fn callbacks(rt: HostRuntime) {
    let (one, other, two) = (
        Coin { number: 1, key: 7 },
        Coin { number: 2, key: 7 },
        Coin { number: 3, key: 8 },
    );
    assert_eq!(rt;
        [compares(&ByKey, &one, &other), compares(&ByKey, &one, &two)],
        [(true, true, true), (true, false, true)],
        "retained, equal and of equal hashes"
    );
    assert_eq!(rt;
        [
            ordered(&one, &other),
            ordered(&one, &two),
            ordered(&two, &one)
        ],
        [Ordering::Equal, Ordering::Less, Ordering::Greater],
        "ordered by key"
    );
}
