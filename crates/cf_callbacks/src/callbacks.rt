//! What a collection asks of its elements.
ghost use Rattle.std.specs.Prelude.{◌≡◌, ℕ, ◌+◌, Bool, true};
ghost use Rattle.std.specs.Cmp.{IsEquivalence, IsTotalOrder};
ghost use Rattle.std.specs.Ordering.{eq_by_cmp};
ghost use Rattle.std.specs.declared.cmp.Ordering.{Ordering};

use crate::steps::Steps;
use std::cmp::Ordering;
use std::sync::ledger::Ledger;

/// How a collection treats elements of the type `E`. A value of the type chooses it at run time.
pub trait Callbacks<E> {
    /// Whether a collection holds a reference to each element.
    ghost keeps: { Self → Bool };

    /// Whether two elements are equal.
    ghost same: { Self → E → E → Bool };

    /// The hash of an element.
    ghost hash_of: { Self → E → ℕ };

    /// How the first of two elements stands to the second.
    ghost rank: { Self → E → E → Ordering };

    /// Whether a collection retains what it takes in and releases what it gives out.
    fn retains(&self) -> bool
        ensures { result ≡ keeps self.now };

    /// Whether two elements are equal.
    fn equal(&self, a: &E, b: &E) -> bool
        ensures { result ≡ same self.now a.now b.now };

    /// The hash of an element.
    fn hash(&self, a: &E) -> u64
        ensures { result ≡ hash_of self.now a.now };

    /// How `a` stands to `b`; counts one step.
    fn order<L: Ledger>(&self, a: &E, b: &E, steps: &mut Steps<L>) -> Ordering
        ensures rank { result ≡ rank self.now a.now b.now }
        ensures steps { steps.new ≡ steps.old + 1 };

    /// To be equal is an equivalence.
    ghost equivalence: { (c : Self) → IsEquivalence (same c) };

    /// Equal elements have equal hashes.
    ghost equal_hashes: { (c : Self) (a b : E) → same c a b ≡ true → hash_of c a ≡ hash_of c b };

    /// The order is total.
    ghost total: { (c : Self) → IsTotalOrder (rank c) };

    /// The order answers `Equal` exactly if the elements are equal.
    ghost equal_ranks: { (c : Self) (a b : E) → same c a b ≡ eq_by_cmp (rank c) a b };
}
