//! Why a script was not read.
ghost use Rattle.std.specs.Prelude.{◌≡◌};
ghost use Rattle.cf_script.specs.declared.fault.LineFault.TheVariants.{Faulty, NoRoom};

use cf_syntax::{Reason, Refusal};
use std::alloc::{AllocError, AllocFailed};
use thiserror::Error;

/// Why a text gave no script.
#[derive(Debug, Drop, Error)]
pub enum ScriptFault {
    /// It is the text of none.
    #[error("the text is refused")]
    Refused(Refusal),
    /// Memory ran out.
    #[error("no memory")]
    NoMemory,
}

/// Why a line was not read.
#[derive(Drop)]
pub(crate) enum LineFault {
    /// It has this fault.
    Faulty(Reason),
    /// Memory ran out.
    NoRoom,
}

impl From<Reason> for LineFault {
    ghost from_gives = { λ reason fault. fault ≡ Faulty reason };

    fn from(reason: Reason) -> LineFault {
        LineFault::Faulty(reason)
    }
}

impl From<AllocError> for LineFault {
    ghost from_gives = { λ _ fault. fault ≡ NoRoom };

    fn from(_error: AllocError) -> LineFault {
        LineFault::NoRoom
    }
}

impl<T: Drop> From<AllocFailed<T>> for LineFault {
    ghost from_gives = { λ _ fault. fault ≡ NoRoom };

    fn from(_error: AllocFailed<T>) -> LineFault {
        LineFault::NoRoom
    }
}
