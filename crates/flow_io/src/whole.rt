//! Reading and writing all bytes.
ghost use Rattle.std.specs.Prelude.{◌≡◌, ◌<◌, ◌≤◌, ⊤, false, true, length, take, vec_len, IfOk, OnErr, OnOk};
ghost use Rattle.flow_io.specs.Devices.{Ends, ReadsInput, Gives, has_ended, is_failed_read};

use crate::devices::{DeviceFault, Input, Output};
use crate::given::{Given, end, give};
use std::alloc::{AllocError, Global};
use thiserror::Error;

/// The reason why a source was not read to its end.
#[derive(Clone, Copy, Debug, Error)]
pub enum ReadStop {
    /// The reader failed.
    #[error("the reader failed")]
    DeviceFault,
    /// An allocation failed.
    #[error("no memory for the bytes read")]
    NoMemory,
}

// The number of bytes that are requested from the reader at a time.
const CHUNK: usize = 65536;

// The number of bytes for which a text of a chunk or more gets memory at once, 32 MB. The system takes only what is
// filled. glibc's `malloc` always maps a block above 32 MB: it grows without a copy, and is unmapped when it is freed.
// If smaller mapped blocks are freed, `malloc` puts later ones into its heap, where they grow by copies.
const TEXT_ROOM: usize = 33_554_432;

// Gives a text of a chunk or more this memory.
fn make_room(text: &mut Vec<u8>) -> Result<(), AllocError>
    ensures items { text.new.items ≡ text.old.items }
    ensures len { vec_len text.new ≡ vec_len text.old }
{
    if text.len() < CHUNK || TEXT_ROOM < text.capacity() {
        return Ok(());
    }
    text.reserve(TEXT_ROOM)
}

/// Reads to the end of the input, and returns all bytes that its reads returned. For a reader that never ends it
/// returns `NoMemory`, as each read makes the text longer.
pub fn read_whole<R: Input>(alloc: Global, reader: &mut R) -> Result<Vec<u8>, ReadStop>
    requires { (R.input reader.old).failed ≡ false }
    ensures whole { IfOk result (λ text. Gives (R.input reader.old) (R.input reader.new) text.items) }
    ensures end { OnOk result (has_ended (R.input reader.new) ≡ true) }
    ensures stopped { OnErr result (ReadsInput (R.input reader.old) (R.input reader.new) (λ _. ⊤)) }
    ensures fault { (R.input reader.new).failed ≡ is_failed_read result }
{
    let mut text = Vec::new(alloc);
    let mut chunk = Vec::new(alloc);
    chunk.resize(CHUNK, 0).map_err(|_| ReadStop::NoMemory)?;
    loop {
        let Ok(count) = reader.read(chunk.as_mut_slice()) else {
            return Err(ReadStop::DeviceFault);
        };
        if count == 0 {
            return Ok(text);
        }
        make_room(&mut text).map_err(|_| ReadStop::NoMemory)?;
        text.extend_from_slice(&chunk[..count])
            .map_err(|_| ReadStop::NoMemory)?;
    }
}

/// Fills the slice, and returns the number of bytes read. It is less than the length of the slice only at the end of
/// the input. Each read requests the bytes that are still missing, and no more. If a read fails, the slice isn't full.
pub fn fill<R: Input>(reader: &mut R, bytes: &mut [u8]) -> Result<usize, DeviceFault>
    ensures within { IfOk result (λ count. count ≤ length bytes.new) }
    ensures given { IfOk result (λ count.
        Gives (R.input reader.old) (R.input reader.new) (take count bytes.new)) }
    ensures short { OnErr result (ReadsInput (R.input reader.old) (R.input reader.new)
        (λ taken. length taken < length bytes.new)) }
    ensures end { IfOk result (λ count. count < length bytes.new → has_ended (R.input reader.new) ≡ true) }
    ensures ok { OnOk result ((R.input reader.new).failed ≡ (R.input reader.old).failed) }
    ensures err { OnErr result ((R.input reader.new).failed ≡ true) }
{
    let mut filled = 0;
    while filled < bytes.len() {
        let Ok(more) = reader.read(&mut bytes[filled..]) else {
            return Err(DeviceFault);
        };
        if more == 0 {
            return Ok(filled);
        }
        filled += more;
    }
    Ok(filled)
}

/// Writes all the bytes, and then flushes the writer once. If a write fails, the writer has taken a prefix of them. If
/// the flush fails, the writer has taken all of them.
pub fn write_whole<W: Output>(writer: &mut W, bytes: &[u8]) -> Result<(), DeviceFault>
    requires { (W.output writer.old).failed ≡ false }
    ensures { Ends (W.output writer.old) (W.output writer.new) bytes.now result }
{
    let mut given = Given::none();
    give(writer, &mut given, bytes);
    end(writer, &given)
}
