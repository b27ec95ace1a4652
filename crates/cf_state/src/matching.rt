//! Which registrations a notice reaches, and which are forgotten.
ghost use Rattle.std.specs.Prelude.{◌≡◌};
ghost use Rattle.rl_base.specs.Receivers.{forgets, takes};

use cf_ids::{NameId, ObjId};
use rl_base::Registration;

/// Whether a wanted name takes a given one.
pub fn takes_name(wanted: &Option<NameId>, given: &Option<NameId>) -> bool
    ensures { result ≡ takes wanted.now given.now }
{
    match (*wanted, *given) {
        (None, _) => true,
        (Some(wanted), Some(given)) => wanted == given,
        (Some(_), None) => false,
    }
}

/// Whether a wanted object takes a given one.
pub fn takes_object(wanted: &Option<ObjId>, given: &Option<ObjId>) -> bool
    ensures { result ≡ takes wanted.now given.now }
{
    match (*wanted, *given) {
        (None, _) => true,
        (Some(wanted), Some(given)) => wanted == given,
        (Some(_), None) => false,
    }
}

/// Whether a registration is forgotten.
pub fn is_forgotten(
    observer: ObjId,
    name: &Option<NameId>,
    filter: &Option<ObjId>,
    registration: &Registration,
) -> bool
    ensures { result ≡ forgets observer name.now filter.now registration.now }
{
    registration.observer == observer
        && takes_name(name, &registration.name)
        && takes_object(filter, &registration.filter)
}
