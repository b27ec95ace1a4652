//! What a description of an object says.
ghost use Rattle.std.specs.Prelude.{◌≡◌, IfOk};

use std::alloc::{AllocError, Global};
use std::marker::Model;

/// The description of an object, as bytes. It stands behind a box, so that an answer is small. Contracts see it as the
/// list of its bytes.
#[derive(Debug, Drop)]
pub struct Description {
    bytes: Box<Vec<u8>>,
}

impl Model for Description {
    ghost use Rattle.std.specs.Prelude.{ℕ, List};

    ghost Value = { List ℕ };

    ghost view = { λ d. d.bytes.value.items };
}

impl Description {
    /// The description of these bytes. `AllocError` comes for want of memory alone.
    pub fn new(alloc: Global, bytes: Vec<u8>) -> Result<Description, AllocError>
        ensures { IfOk result (λ d. d ≡ bytes.items) }
    {
        let bytes = Box::new(alloc, bytes)?;
        Ok(Description { bytes })
    }

    /// The bytes, lent.
    pub fn as_slice(&self) -> &[u8]
        ensures { result.now ≡ self.now }
    {
        self.bytes.as_slice()
    }
}
