//! Numbers, and the calls on them.
ghost use Rattle.std.specs.Prelude.{◌≡◌, ◌↔◌, IsOk, IfOk};

use crate::kinds::NumKind;
use std::cmp::Ordering;
use std::marker::Model;

/// The value does not fit the kind that it should be made with.
#[derive(Clone, Copy, Debug)]
pub struct OutOfKind;

/// The value does not fit the kind that it should be read as.
#[derive(Clone, Copy, Debug)]
pub struct Lossy;

/// A whole number and the kind that it was made with, which holds its value.
#[derive(Clone, Copy)]
pub struct Num {
    kind: NumKind,
    value: i64,
}

impl Model for Num {
    ghost use Rattle.cf_number.specs.Kinds.{FitsKind};
    ghost use Rattle.cf_number.specs.Numbers.{Number};

    ghost Value = { Number };

    ghost view = { λ n. record { kind = n.kind; value = n.value } };

    ghost invariant = { λ n. FitsKind n.kind n.value };

    ghost inverse = { λ n. record { kind = n.kind; value = n.value } };
}

impl Num {
    ghost use Rattle.cf_number.specs.Kinds.{FitsKind};
    ghost use Rattle.cf_number.specs.Numbers.{order_of};

    /// A number of this kind and value; `OutOfKind` exactly if the kind does not hold the value.
    pub fn make(kind: NumKind, value: i64) -> Result<Num, OutOfKind>
        ensures fits { IsOk result ↔ FitsKind kind value }
        ensures made { IfOk result (λ n. n ≡ record { kind = kind; value = value }) }
    {
        if !kind.holds(value) {
            return Err(OutOfKind);
        }
        Ok(Num { kind, value })
    }

    /// The value, read as a number of this kind; `Lossy` exactly if the kind does not hold it.
    pub fn get_as(&self, kind: NumKind) -> Result<i64, Lossy>
        ensures fits { IsOk result ↔ FitsKind kind self.now.value }
        ensures same { IfOk result (λ v. v ≡ self.now.value) }
    {
        if !kind.holds(self.value) {
            return Err(Lossy);
        }
        Ok(self.value)
    }

    /// The kind that the number was made with.
    pub fn kind(&self) -> NumKind
        ensures kind { result ≡ self.now.kind }
        ensures within { FitsKind self.now.kind self.now.value }
    {
        self.kind
    }

    /// The value, within the range of the number's kind.
    pub fn value(&self) -> i64
        ensures value { result ≡ self.now.value }
        ensures within { FitsKind self.now.kind self.now.value }
    {
        self.value
    }

    /// How this number's value stands to the other's; the kinds play no part.
    pub fn compare(&self, other: &Num) -> Ordering
        ensures { result ≡ order_of self.now other.now }
    {
        self.value.cmp(&other.value)
    }
}
