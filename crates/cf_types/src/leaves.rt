//! The type of an object and what it is compared by.
ghost use Rattle.std.specs.Prelude.{◌≡◌, IfOk};
ghost use Rattle.cf_types.specs.Hash.{hash_of, leaf_bytes};
ghost use Rattle.cf_types.specs.Leaves.{leaf_order, leaves_equal};

use crate::forms::Form;
use crate::hashing::{START, hash_on};
use cf_ids::TypeId;
use std::alloc::{AllocError as NoMemory, Global};
use std::cmp::Ordering;
use std::marker::Model;

/// The type of an object and what it is compared by.
#[derive(Drop)]
pub struct Leaf {
    /// The type of the object. Objects of different types are never equal.
    pub class: TypeId,
    /// What it is compared by among objects of its type.
    pub form: Form,
}

impl Model for Leaf {
    ghost use Rattle.cf_types.specs.Views.{LeafView};

    ghost Value = { LeafView };

    ghost use Rattle.cf_types.specs.Forms.{form_view};

    ghost view = { λ leaf. record { class = leaf.class; form = form_view leaf.form } };
}

impl Leaf {
    /// A leaf with the same class and contents.
    pub(crate) fn copy(&self, alloc: Global) -> Result<Leaf, NoMemory>
        ensures { IfOk result (λ copied. copied ≡ self.now) }
    {
        let form = self.form.copy(alloc)?;
        Ok(Leaf {
            class: self.class,
            form,
        })
    }

    /// Whether the two leaves are equal.
    pub(crate) fn equals(&self, other: &Leaf) -> bool
        ensures { result ≡ leaves_equal self.now other.now }
    {
        self.class == other.class && self.form.equals(&other.form)
    }

    /// The hash of the class and the contents.
    pub(crate) fn hash(&self) -> u64
        ensures { result ≡ hash_of (leaf_bytes self.now) }
    {
        self.form.hash(hash_on(START, &self.class.0.to_be_bytes()))
    }

    /// How this leaf stands to the other.
    pub(crate) fn order(&self, other: &Leaf) -> Ordering
        ensures { result ≡ leaf_order self.now other.now }
    {
        match self.class.0.cmp(&other.class.0) {
            Ordering::Equal => self.form.order(&other.form),
            unequal => unequal,
        }
    }
}
