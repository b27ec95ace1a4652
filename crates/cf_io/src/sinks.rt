//! What is written.
ghost use Rattle.std.specs.Prelude.{◌≡◌, ◌<◌, ◌≤◌, ℕ, List, length, take, Option, IfOk, OnErr};
ghost use Rattle.cf_fault.specs.Fault.{HasCause};
ghost use Rattle.cf_io.specs.Bytes.{then_bytes};

use crate::Failed;

/// A stream that takes bytes.
pub trait Sink {
    /// The bytes that it has taken, if it tells them.
    ghost taken: { Self → Option (List ℕ) };

    /// How many faults it has counted.
    ghost faults: { Self → ℕ };

    /// Takes the first bytes of a piece, and says how many; of a piece that is not empty at least one.
    fn write(&mut self, bytes: &[u8]) -> Result<usize, Failed>
        ensures bound { IfOk result (λ n. n ≤ length bytes.now) }
        ensures some { IfOk result (λ n. 0 < length bytes.now → 0 < n) }
        ensures taken { IfOk result (λ n. taken self.new ≡ then_bytes (taken self.old) (take n bytes.now)) }
        ensures kept { OnErr result (taken self.new ≡ taken self.old) }
        ensures cause { HasCause result (faults self.old) (faults self.new) };
}
