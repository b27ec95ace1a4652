//! Numbers that mean different things have different types, and each type keeps its range.
ghost use Rattle.std.specs.Prelude.{ℕ, ◌<◌, Some};
ghost use Rattle.cf_ids.specs.declared.limits.TheConstants.{HANDLERS, MODES, NOTICES, VARIABLES};
ghost use Rattle.cf_ids.specs.Ranges.{IsObjectNumber, IsThread, IsTypeNumber};
ghost use Rattle.cf_ids.specs.Words.{thread_word, number_word};

use std::fmt;
use std::marker::Model;

/// The number of an object: 0 to 65,535 in the order in which a run makes them. The numbers from there to 66,559 are
/// kept for constants of a script.
#[derive(Clone, Copy, Debug, PartialEq, Eq)]
pub struct ObjId(pub u32);

impl Model for ObjId {
    ghost Value = { ℕ };

    ghost view = { λ id. id.0 };

    ghost invariant = { λ id. IsObjectNumber id.0 };

    ghost inverse = { λ n. record { 0 = n } };
}

impl fmt::Display for ObjId {
    ghost output = { λ id. Some (number_word id) };

    fn fmt<W: fmt::Write>(&self, f: &mut fmt::Formatter<W>) -> fmt::Result {
        let number = self.0;
        write!(f, "#{number}")
    }
}

/// The number of a thread: 0 is setup, 1 to 63 are a script's thread blocks in order, and 255 is
/// the lead, which makes the ticks and stalls.
#[derive(Clone, Copy, Debug, PartialEq, Eq)]
pub struct ThreadId(pub u8);

impl Model for ThreadId {
    ghost Value = { ℕ };

    ghost view = { λ id. id.0 };

    ghost invariant = { λ id. IsThread id.0 };

    ghost inverse = { λ n. record { 0 = n } };
}

impl fmt::Display for ThreadId {
    ghost output = { λ id. Some (thread_word id) };

    fn fmt<W: fmt::Write>(&self, f: &mut fmt::Formatter<W>) -> fmt::Result {
        let number = self.0;
        if number == 255 {
            write!(f, "lead")
        } else {
            write!(f, "t{number}")
        }
    }
}

impl ThreadId {
    /// The thread of the block `setup`.
    pub const SETUP: ThreadId = ThreadId(0);

    /// The lead, which is no thread of a script.
    pub const LEAD: ThreadId = ThreadId(255);
}

/// The number of a type: 1 to 13 are built in, and a script's classes follow up to 1,024. 1,025 is kept for a type
/// beside the registry. 0 is no type.
#[derive(Clone, Copy, Debug, PartialEq, Eq)]
pub struct TypeId(pub u16);

impl Model for TypeId {
    ghost Value = { ℕ };

    ghost view = { λ id. id.0 };

    ghost invariant = { λ id. IsTypeNumber id.0 };

    ghost inverse = { λ n. record { 0 = n } };
}

impl TypeId {
    /// Strings, mutable ones too.
    pub const STRING: TypeId = TypeId(3);
}

/// The number of a variable in its block, in the order of first use: 0 to 255.
#[derive(Clone, Copy, Debug, Default, PartialEq, Eq)]
pub struct VarId(pub u16);

impl Model for VarId {
    ghost Value = { ℕ };

    ghost view = { λ id. id.0 };

    ghost invariant = { λ id. id.0 < VARIABLES };

    ghost inverse = { λ n. record { 0 = n } };
}

/// The number of a run-loop mode, in the order of first use: 0 to 1,023.
#[derive(Clone, Copy, Debug, PartialEq, Eq)]
pub struct ModeId(pub u16);

impl Model for ModeId {
    ghost Value = { ℕ };

    ghost view = { λ id. id.0 };

    ghost invariant = { λ id. id.0 < MODES };

    ghost inverse = { λ n. record { 0 = n } };
}

impl ModeId {
    /// The mode `default`, which is a common mode from the start.
    pub const DEFAULT: ModeId = ModeId(0);
}

/// The number of a handler, in the order of first use: 0 to 1,023.
#[derive(Clone, Copy, Debug, PartialEq, Eq)]
pub struct HandlerId(pub u16);

impl Model for HandlerId {
    ghost Value = { ℕ };

    ghost view = { λ id. id.0 };

    ghost invariant = { λ id. id.0 < HANDLERS };

    ghost inverse = { λ n. record { 0 = n } };
}

/// The number of a notice's name, in the order of first use: 0 to 1,023.
#[derive(Clone, Copy, Debug, PartialEq, Eq)]
pub struct NameId(pub u16);

impl Model for NameId {
    ghost Value = { ℕ };

    ghost view = { λ id. id.0 };

    ghost invariant = { λ id. id.0 < NOTICES };

    ghost inverse = { λ n. record { 0 = n } };
}

/// What a run-loop item is.
#[derive(Clone, Copy, Debug, PartialEq, Eq)]
pub enum ItemKind {
    /// A source, which is called after it was signalled.
    Source,
    /// A timer, which is called at its dates.
    Timer,
    /// An observer, which is told of activities. It keeps no mode from being empty.
    Observer,
}

/// An object that a run loop's modes hold.
#[derive(Clone, Copy, Debug, PartialEq, Eq)]
pub struct Item {
    /// The number of its object.
    pub id: ObjId,
    /// What it is.
    pub kind: ItemKind,
}
