ghost use Rattle.std.specs.Prelude.{◌≡◌, ◌↔◌, ◌⊎◌, ◌≤◌, ◌<◌, ◌+◌, ℕ, take, length, IfOk, IfErr, OnOk, IfSome, IsTrue, vec_len, false};
ghost use Rattle.std.specs.Io.KnownBytes.{Appends};
ghost use Rattle.vk_trace.specs.Watching.{counted};
ghost use Rattle.vk_trace.specs.Streams.{IsOfReading};

use crate::errors::RunError;
use crate::watched::Watched;
use std::alloc::{AllocError, Global};
use std::io::{Read, Write};

const MOST_BYTES: usize = 16_777_216;

const MOST_READS: u64 = 1_048_576;

/// How many bytes are asked of a reader at first: all pages of a chunk are zeroed, for a small trace too.
const FIRST_CHUNK: usize = 4_096;

/// How many are asked for at once where those were all there.
const CHUNK: usize = 65_536;

// Apart from its caller, whose goals would otherwise write out all of the zeroes.
fn zeroes(alloc: Global, size: usize) -> Result<Vec<u8>, AllocError>
    ensures { IfOk result (λ v. vec_len v ≡ size) }
{
    vec![in alloc; 0u8; size]
}

/// The chunk for the next read, after one of so many bytes: a longer one where it was filled.
fn next_chunk(alloc: Global, chunk: Vec<u8>, read: usize) -> Result<Vec<u8>, AllocError>
    ensures { IfOk result (λ next. vec_len chunk ≤ vec_len next) }
{
    if read == chunk.len() && read < CHUNK {
        let next = zeroes(alloc, CHUNK)?;
        return Ok(next);
    }
    Ok(chunk)
}

/// Reads the input of a trace to its end.
///
/// # Errors
///
/// `ReadFault` where a read failed, `TooLong` where the input has more than 16,777,216 bytes or no end after
/// 1,048,576 reads, `NoMemory`.
pub fn read_all<R: Read>(alloc: Global, reader: &mut Watched<R>) -> Result<Vec<u8>, RunError>
    requires { reader.old.failed ≡ false }
    ensures ok { IfOk result (λ v. IfSome (R.remaining reader.old.inner) (λ input. input ≡ v.items)) }
    ensures kinds { IfErr result IsOfReading }
    ensures failed { (result ≡ Err RunError.ReadFault) ↔ IsTrue reader.new.failed }
    ensures within { IfOk result (λ v. length v.items ≤ 16777216) }
    ensures calls { reader.new.calls ≤ reader.old.calls + 1048576 }
    ensures too_long { result ≡ Err RunError.TooLong → (reader.new.calls ≡ counted reader.old.calls 1048576)
        ⊎ IfSome (R.remaining reader.old.inner) (λ input. 16777216 < length input) }
{
    let mut input = Vec::new(alloc);
    let mut chunk = zeroes(alloc, FIRST_CHUNK)?;
    for _ in 0..MOST_READS {
        match reader.read(&mut chunk) {
            Err(_) => return Err(RunError::ReadFault),
            Ok(0) => return Ok(input),
            Ok(n) => {
                if input.len() + n > MOST_BYTES {
                    return Err(RunError::TooLong);
                }
                input.extend_from_slice(&chunk[..n])?;
                chunk = next_chunk(alloc, chunk, n)?;
            }
        }
    }
    Err(RunError::TooLong)
}

/// Writes all the bytes.
///
/// # Errors
///
/// `WriteFault` where a write failed, with how many bytes were written before; they are the first ones.
pub fn write_all<W: Write>(writer: &mut Watched<W>, bytes: &[u8]) -> Result<(), RunError>
    requires { writer.old.failed ≡ false }
    ensures ok { OnOk result (Appends (W.contents writer.old.inner) (W.contents writer.new.inner) bytes.now) }
    ensures unharmed { OnOk result (writer.new.failed ≡ false) }
    ensures calls { writer.new.calls ≤ writer.old.calls + length bytes.now }
    ensures err { IfErr result (λ e. (n : ℕ) × (e ≡ RunError.WriteFault n) × (n ≤ length bytes.now)
        × Appends (W.contents writer.old.inner) (W.contents writer.new.inner) (take n bytes.now)
        × IsTrue writer.new.failed) }
{
    let mut written = 0usize;
    for _ in 0..bytes.len() {
        if written >= bytes.len() {
            break;
        }
        match writer.write(&bytes[written..]) {
            Err(_) => return Err(RunError::WriteFault(written as u64)),
            Ok(0) => return Err(RunError::WriteFault(written as u64)),
            Ok(n) => written += n,
        }
    }
    Ok(())
}
