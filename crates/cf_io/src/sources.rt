//! What is read.
ghost use Rattle.std.specs.Prelude.{◌≡◌, ◌<◌, ◌≤◌, ℕ, List, [], length, take, Option, IfOk, OnOk, OnErr};
ghost use Rattle.cf_fault.specs.Fault.{HasCause};
ghost use Rattle.cf_io.specs.Bytes.{bytes_then, IsAtEnd};
ghost use Rattle.cf_io.specs.Files.{File, IsOpened};

/// The call failed, and the object has counted a fault.
#[derive(Clone, Copy, Debug)]
pub struct Failed;

/// Files that are opened by name and read in pieces, one at a time.
pub trait Source {
    /// The contents of its files by name, if it tells them.
    ghost files: { Self → Option (List File) };

    /// The bytes of the open file that are not yet read, if it tells them.
    ghost left: { Self → Option (List ℕ) };

    /// How many faults it has counted.
    ghost faults: { Self → ℕ };

    /// Opens a file at its beginning.
    fn open(&mut self, name: &str) -> Result<(), Failed>
        ensures opened { OnOk result (IsOpened (files self.old) name.now (left self.new)) }
        ensures files { files self.new ≡ files self.old }
        ensures kept { OnErr result (left self.new ≡ left self.old) }
        ensures cause { HasCause result (faults self.old) (faults self.new) };

    /// Reads some bytes of the open file into the front of the buffer, and says how many; none only at the file's end.
    fn read(&mut self, buf: &mut [u8]) -> Result<usize, Failed>
        requires { 0 < length buf.old }
        ensures bound { IfOk result (λ n. n ≤ length buf.old) }
        ensures bytes { IfOk result (λ n. left self.old ≡ bytes_then (take n buf.new) (left self.new)) }
        ensures end { IfOk result (λ n. n ≡ 0 → IsAtEnd (left self.old)) }
        ensures files { files self.new ≡ files self.old }
        ensures kept { OnErr result (left self.new ≡ left self.old) }
        ensures cause { HasCause result (faults self.old) (faults self.new) };
}
