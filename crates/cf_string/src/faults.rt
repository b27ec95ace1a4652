//! Why a call on texts is refused.
ghost use Rattle.std.specs.Prelude.{◌≡◌};
ghost use Rattle.cf_string.specs.declared.faults.StrFault.TheVariants.{NoMemory};

use std::alloc::AllocError;
use thiserror::Error;

/// Why a call of `Str` is refused. Where several causes stand together, the one that is listed first is answered.
#[derive(Clone, Copy, Debug, Error)]
pub enum StrFault {
    /// The bytes of `from_utf8` are not UTF-8.
    #[error("the bytes are not UTF-8")]
    NotUtf8,
    /// The units that a call names are not all there: the place, or the place and the length together, pass the
    /// length.
    #[error("the range passes the length")]
    Range,
    /// One of the two ends of the range falls between the two units of a surrogate pair.
    #[error("a cut falls inside a surrogate pair")]
    SplitsPair,
    /// Memory could not be taken. Only the calls that make a new text answer it.
    #[error("out of memory")]
    NoMemory,
}

impl From<AllocError> for StrFault {
    ghost from_gives = { λ _ e. e ≡ NoMemory };

    fn from(_error: AllocError) -> StrFault {
        StrFault::NoMemory
    }
}
