//! The types of a script: the built-in ones, and those that it adds.
ghost use Rattle.std.specs.Prelude.{◌≡◌, ◌+◌, ◌-◌, ◌≤◌, ◌<◌, [], ◌∷◌, ◌++◌, false, true, length, map, slice_get, IfOk, OnOk, OnErr};
ghost use Rattle.cf_ids.specs.declared.limits.TheConstants.{TYPES};
ghost use Rattle.std.specs.Option.{option_copied};
ghost use Rattle.cf_types.specs.Faults.{IsRefusedFor, register_fault};
ghost use Rattle.cf_types.specs.Named.{are_new};
ghost use Rattle.cf_types.specs.Registry.{built_in, built_in_classes, has_name};
ghost use Rattle.cf_types.specs.declared.registry.RegisterFault.TheVariants.{NoMemory};

use crate::classes::{BUILT_IN_NAMES, Class, Equality};
use cf_ids::{Seq, TYPES, TypeId};
use indexmap::IndexMap;
use std::alloc::{AllocError, Global};
use std::marker::Model;
use thiserror::Error;

/// Why a class is not added.
#[derive(Clone, Copy, Debug, Error)]
pub enum RegisterFault {
    /// There are 1,024 types, the most that there can be.
    #[error("there are 1,024 types")]
    Full,
    /// A type has this name already.
    #[error("a type has this name")]
    Taken,
    /// Memory could not be taken.
    #[error("out of memory")]
    NoMemory,
}

impl From<AllocError> for RegisterFault {
    ghost from_gives = { λ _ e. e ≡ NoMemory };

    fn from(_error: AllocError) -> RegisterFault {
        RegisterFault::NoMemory
    }
}

/// The types of objects, built-in and a script's own. Contracts see the list of them: the type with
/// the number n is the n-th, counted from 1.
#[derive(Drop)]
pub struct Registry {
    /// The classes in the order of their numbers, each at its name, so that a name is found by one look-up.
    classes: IndexMap<String, Class>,
}

impl Model for Registry {
    ghost use Rattle.std.specs.Prelude.{List, ◌≤◌, length};
    ghost use Rattle.cf_types.specs.declared.classes.Class.{Class};
    ghost use Rattle.cf_ids.specs.declared.limits.TheConstants.{TYPES};
    ghost use Rattle.indexmap.specs.IndexMap.{values};
    ghost use Rattle.cf_types.specs.Named.{AreNamed};

    ghost Value = { List Class };

    ghost view = { λ r. values r.classes };

    ghost invariant = { λ r. (length r.classes.entries ≤ TYPES) × AreNamed r.classes.entries };
}

impl Registry {
    /// The 13 built-in types. `AllocError` comes for want of memory alone.
    pub fn new(alloc: Global) -> Result<Registry, AllocError>
        ensures { IfOk result (λ registry. registry ≡ built_in_classes) }
    {
        let mut registry = Registry {
            classes: IndexMap::new(alloc),
        };
        registry.add_built_in(alloc, &BUILT_IN_NAMES)?;
        Ok(registry)
    }

    /// Adds a class after the others, and answers its number. `Full` comes exactly if there are 1,024 types, `Taken`
    /// exactly if there are fewer and one has the name, and `NoMemory` for want of memory alone. A refusal changes
    /// nothing.
    pub fn register(
        &mut self,
        alloc: Global,
        name: &str,
        fields: u8,
        equality: Equality,
    ) -> Result<TypeId, RegisterFault>
        ensures fault { IsRefusedFor result (register_fault self.old name.now) }
        ensures number { IfOk result (λ id. id ≡ length self.old + 1) }
        ensures added { OnOk result (self.new ≡ self.old
            ++ record { name = name.now; fields = fields; equality = equality } ∷ []) }
        ensures refused { OnErr result (self.new ≡ self.old) }
        ensures within { length self.old ≤ TYPES }
    {
        if TYPES <= self.classes.len() {
            return Err(RegisterFault::Full);
        }
        if self.has_name(name) {
            return Err(RegisterFault::Taken);
        }
        self.add(alloc, name, fields, equality)?;
        Ok(TypeId(self.classes.len() as u16))
    }

    /// The type with this number, and `None` if there is none.
    pub fn class(&self, id: TypeId) -> Option<&Class>
        ensures { option_copied result ≡ slice_get self.now (id - 1) }
    {
        let (_, class) = self.classes.get_index(usize::from(id.0) - 1)?;
        Some(class)
    }

    /// Whether a class has this name.
    fn has_name(&self, name: &str) -> bool
        ensures { result ≡ has_name self.now name.now }
    {
        self.classes.contains_key(name)
    }

    /// Puts a class of a new name after the others. The bytes of the name are copied twice, for the class and for the
    /// look-up. `NoMemory` changes no class.
    fn add(
        &mut self,
        alloc: Global,
        name: &str,
        fields: u8,
        equality: Equality,
    ) -> Result<(), AllocError>
        requires room { length self.old < TYPES }
        requires free { has_name self.old name.now ≡ false }
        ensures ok { OnOk result (self.new ≡ self.old
            ++ record { name = name.now; fields = fields; equality = equality } ∷ []) }
        ensures err { OnErr result (self.new ≡ self.old) }
    {
        let key = String::from_str(alloc, name)?;
        let name = Seq::from_vec(Vec::from_slice(alloc, name.as_bytes())?);
        let class = Class {
            name,
            fields,
            equality,
        };
        self.classes.insert(key, class)?;
        Ok(())
    }

    /// Puts the built-in classes of these names, which are new, after the others. After `NoMemory` some of them may be
    /// there.
    fn add_built_in(&mut self, alloc: Global, names: &[&str]) -> Result<(), AllocError>
        requires room { length self.old + length names.now ≤ TYPES }
        requires new { are_new self.old (map (λ name. name.now) names.now) ≡ true }
        ensures { OnOk result (self.new ≡ self.old ++ map (λ name. built_in name.now) names.now) }
    {
        for &name in names {
            self.add(alloc, name, 0, Equality::Identity)?;
        }
        Ok(())
    }
}
