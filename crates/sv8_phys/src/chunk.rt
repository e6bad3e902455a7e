//! Chunks of the bytes that the console has put out.

ghost use Rattle.std.specs.Prelude.{◌≡◌, ◌<◌, length, IfOk, OnOk, OnErr, slice_set, slice_index};

use std::alloc::{AllocError, Global};
use std::rc::Rc;

/// The number of bytes of a chunk.
pub(crate) const CHUNK_BYTES: usize = 512;

/// Room for some bytes, which snapshots share until one of them writes.
#[derive(Clone, Copy)]
pub(crate) struct Chunk {
    pub(crate) bytes: [u8; CHUNK_BYTES],
    ghost full: { length bytes ≡ 512 },
}

impl Chunk {
    /// A chunk whose first byte is given, and whose others are 0.
    #[cold]
    #[inline(never)]
    pub(crate) fn starting_with(alloc: Global, byte: u8) -> Result<Rc<Chunk>, AllocError>
        ensures { IfOk result (λ chunk. slice_index chunk.value.bytes 0 ≡ byte) }
    {
        let mut bytes = [0; CHUNK_BYTES];
        bytes[0] = byte;
        let chunk = Rc::new(alloc, Chunk { bytes })?;
        Ok(chunk)
    }
}

/// Writes a byte of a chunk; of a shared chunk, to a copy.
pub(crate) fn write(shared: &mut Rc<Chunk>, at: usize, byte: u8) -> Result<(), AllocError>
    requires { at < 512 }
    ensures ok { OnOk result (shared.new.value.bytes ≡ slice_set shared.old.value.bytes at byte) }
    ensures err { OnErr result (shared.new.value ≡ shared.old.value) }
{
    if let Some(own) = Rc::get_mut(shared) {
        own.bytes[at] = byte;
        return Ok(());
    }
    write_to_copy(shared, at, byte)?;
    Ok(())
}

// The copy takes room on the stack, so it stays out of the way of a plain write.
#[cold]
#[inline(never)]
fn write_to_copy(shared: &mut Rc<Chunk>, at: usize, byte: u8) -> Result<(), AllocError>
    requires { at < 512 }
    ensures ok { OnOk result (shared.new.value.bytes ≡ slice_set shared.old.value.bytes at byte) }
    ensures err { OnErr result (shared.new.value ≡ shared.old.value) }
{
    let copy = Rc::make_mut(shared)?;
    copy.bytes[at] = byte;
    Ok(())
}
