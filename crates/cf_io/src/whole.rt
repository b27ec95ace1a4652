//! A whole file in, and a whole text out.
ghost use Rattle.std.specs.Prelude.{◌≡◌, ◌<◌, ◌≤◌, ◌+◌, length, take, IfOk, OnOk, IfErr, IfSome, IsErrOf, IsTrue, vec_len, MatchBool};
ghost use Rattle.cf_fault.specs.Fault.{HasRisen, HasCause};
ghost use Rattle.cf_io.specs.Bytes.{bytes_then, then_bytes, HasGiven, IsAtEnd};
ghost use Rattle.cf_io.specs.Whole.{UnlessReadFault};

use crate::{Failed, Sink, Source};
use std::alloc::Global;
use thiserror::Error;

// How many bytes are asked for at once.
const PIECE: usize = 4096;

/// Why a file was not read to its end.
#[derive(Clone, Copy, Debug, Error)]
pub enum ReadAll {
    /// A read failed before more than the allowed number of bytes were given.
    #[error("a read failed")]
    ReadFault,
    /// The file has more than the allowed number of bytes.
    #[error("the file is too long")]
    TooLong,
    /// There was no memory for the bytes. It may come at any length.
    #[error("out of memory")]
    NoMemory,
}

/// A write failed before all the bytes were taken.
#[derive(Clone, Copy, Debug)]
pub struct WriteFault {
    /// How many bytes were taken before, from the first on.
    pub out: usize,
}

/// The bytes of the open file to its end, if they are not more than `limit` bytes. `TooLong` comes only if there
/// are more, `ReadFault` only if the source has counted a fault and had given at most `limit` bytes by then, and
/// `NoMemory` for want of memory, at any length.
pub fn read_all<S: Source>(alloc: Global, source: &mut S, limit: usize) -> Result<Vec<u8>, ReadAll>
    ensures whole { IfOk result (λ all. IfSome (S.left source.old) (λ bytes. all.items ≡ bytes)) }
    ensures fits { IfOk result (λ all. vec_len all ≤ limit) }
    ensures at_end { OnOk result (IsAtEnd (S.left source.new)) }
    ensures too_long { IsErrOf result ReadAll.TooLong → IfSome (S.left source.old) (λ bytes. limit < length bytes) }
    ensures within { IsErrOf result ReadAll.ReadFault → HasGiven limit (S.left source.old) (S.left source.new) }
    ensures fault { IsErrOf result ReadAll.ReadFault → HasRisen (S.faults source.old) (S.faults source.new) }
    ensures quiet { UnlessReadFault result (S.faults source.new ≡ S.faults source.old) }
    ensures never_falls { S.faults source.old ≤ S.faults source.new }
    ensures files { S.files source.new ≡ S.files source.old }
{
    let mut bytes = Vec::new(alloc);
    let mut piece = [0; PIECE];
    while read_piece(source, &mut piece, limit, &mut bytes)? {}
    Ok(bytes)
}

// Reads one piece after what was read before, and says whether there was one.
fn read_piece<S: Source>(
    source: &mut S,
    piece: &mut [u8],
    limit: usize,
    bytes: &mut Vec<u8>,
) -> Result<bool, ReadAll>
    requires room { 0 < length piece.old }
    requires fits { vec_len bytes.old ≤ limit }
    ensures whole { OnOk result (bytes_then bytes.old.items (S.left source.old)
        ≡ bytes_then bytes.new.items (S.left source.new)) }
    ensures more { IfOk result (λ more.
        MatchBool more (vec_len bytes.old < vec_len bytes.new) (IsAtEnd (S.left source.new))) }
    ensures fits { OnOk result (vec_len bytes.new ≤ limit) }
    ensures too_long { IsErrOf result ReadAll.TooLong →
        IfSome (S.left source.old) (λ left. limit < vec_len bytes.old + length left) }
    ensures kept { IsErrOf result ReadAll.ReadFault → S.left source.new ≡ S.left source.old }
    ensures fault { IsErrOf result ReadAll.ReadFault → HasRisen (S.faults source.old) (S.faults source.new) }
    ensures quiet { UnlessReadFault result (S.faults source.new ≡ S.faults source.old) }
    ensures never_falls { S.faults source.old ≤ S.faults source.new }
    ensures files { S.files source.new ≡ S.files source.old }
{
    let count = source.read(piece).map_err(|_| ReadAll::ReadFault)?;
    // What is more than may be ends the reading at once, so that no later fault hides it.
    if count > limit - bytes.len() {
        return Err(ReadAll::TooLong);
    }
    bytes
        .extend_from_slice(&piece[..count])
        .map_err(|_| ReadAll::NoMemory)?;
    Ok(count > 0)
}

/// Writes all the bytes, or else says how many of them the sink has taken, which are not all. It fails only if the
/// sink has counted a fault.
pub fn write_all<K: Sink>(sink: &mut K, bytes: &[u8]) -> Result<(), WriteFault>
    ensures ok { OnOk result (K.taken sink.new ≡ then_bytes (K.taken sink.old) bytes.now) }
    ensures err { IfErr result (λ e. K.taken sink.new ≡ then_bytes (K.taken sink.old) (take e.out bytes.now)) }
    ensures short { IfErr result (λ e. e.out < length bytes.now) }
    ensures cause { HasCause result (K.faults sink.old) (K.faults sink.new) }
{
    let mut out = 0;
    while out < bytes.len() {
        match sink.write(&bytes[out..]) {
            Ok(count) => out += count,
            Err(Failed) => return Err(WriteFault { out }),
        }
    }
    Ok(())
}
