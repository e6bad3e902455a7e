//! The bytes that the console has put out.

ghost use Rattle.std.specs.Prelude.{◌≡◌, ℕ, ◌+◌, ◌<◌, ◌≤◌, List, [], ◌∷◌, ◌++◌, option_map, IfOk, OnOk, OnErr};
ghost use Rattle.sv8_phys.specs.Chunks.{chunk_bytes, tail_bytes, output_bytes, IsFilled};
ghost use Rattle.sv8_phys.specs.Ends.{IsEnd};
ghost use Rattle.sv8_phys.specs.Pieces.{piece_of};

use crate::chunk::{CHUNK_BYTES, Chunk, write};
use std::alloc::{AllocError, Global};
use std::marker::Model;
use std::rc::Rc;

/// A place in the console's output: the index of a piece of 512 bytes, and a place in it.
#[derive(Clone, Copy)]
pub struct OutputPlace {
    pub piece: usize,
    pub place: usize,
}

/// The chunk that is being filled, and how many of its bytes were put out.
#[derive(Drop)]
struct Tail {
    chunk: Rc<Chunk>,
    count: usize,
}

/// The bytes put out so far.
///
/// Each snapshot of a machine has them, so snapshots share them: full chunks never change, their list is copied only
/// where a chunk is added while a snapshot has the list too, and the tail only where a byte is put into it while a
/// snapshot has it too. A snapshot takes two handles, whatever was put out, and a machine that puts nothing out has no
/// chunk at all.
#[derive(Drop)]
pub(crate) struct Output {
    alloc: Global,
    full: Rc<Vec<Rc<Chunk>>>,
    tail: Option<Tail>,
}

impl Model for Output {
    ghost use Rattle.std.specs.Prelude.{List, ℕ};
    ghost use Rattle.sv8_phys.specs.Chunks.{output_bytes, IsWithin};

    ghost Value = { List ℕ };

    ghost view = { λ o. output_bytes o.full.value.items o.tail };

    ghost invariant = { λ o. IsWithin o.tail };
}

/// A tail of one byte.
#[tactic(auto, using(crate::proofs::ChunkLemmas::first_byte))]
fn tail_of(alloc: Global, byte: u8) -> Result<Tail, AllocError>
    ensures value { IfOk result (λ tail. tail_bytes tail ≡ byte ∷ []) }
    ensures count { IfOk result IsFilled }
{
    let chunk = Chunk::starting_with(alloc, byte)?;
    Ok(Tail { chunk, count: 1 })
}

/// Puts a byte into a tail that has room for it.
fn put(tail: &mut Tail, byte: u8) -> Result<(), AllocError>
    requires filled { IsFilled tail.old }
    requires room { tail.old.count < 512 }
    ensures ok { OnOk result (tail_bytes tail.new ≡ tail_bytes tail.old ++ byte ∷ []) }
    ensures err { OnErr result (tail_bytes tail.new ≡ tail_bytes tail.old) }
    ensures count { IsFilled tail.new }
{
    write(&mut tail.chunk, tail.count, byte)?;
    tail.count += 1;
    Ok(())
}

/// Adds a full chunk.
fn add(full: &mut Rc<Vec<Rc<Chunk>>>, chunk: Rc<Chunk>) -> Result<(), AllocError>
    ensures ok { OnOk result (chunk_bytes full.new.value.items ≡ chunk_bytes full.old.value.items ++ chunk.value.bytes) }
    ensures err { OnErr result (chunk_bytes full.new.value.items ≡ chunk_bytes full.old.value.items) }
{
    let chunks = Rc::make_mut(full)?;
    chunks.push(chunk)?;
    Ok(())
}

/// Puts a byte behind those of full chunks and of a tail. The chunk of a full tail is added, and the byte has a tail of
/// its own.
fn put_behind(
    full: &mut Rc<Vec<Rc<Chunk>>>,
    tail: &mut Tail,
    alloc: Global,
    byte: u8,
) -> Result<(), AllocError>
    requires { IsFilled tail.old }
    ensures ok { OnOk result (chunk_bytes full.new.value.items ++ tail_bytes tail.new ≡ chunk_bytes full.old.value.items ++ tail_bytes tail.old ++ byte ∷ []) }
    ensures err { OnErr result (chunk_bytes full.new.value.items ++ tail_bytes tail.new ≡ chunk_bytes full.old.value.items ++ tail_bytes tail.old) }
    ensures count { IsFilled tail.new }
{
    if tail.count < CHUNK_BYTES {
        put(tail, byte)?;
        return Ok(());
    }
    let next = tail_of(alloc, byte)?;
    add(full, tail.chunk.clone()?)?;
    *tail = next;
    Ok(())
}

/// The same tail, whose chunk is shared.
fn share(tail: &Tail) -> Result<Tail, AllocError>
    ensures value { IfOk result (λ copy. tail_bytes copy ≡ tail_bytes tail.now) }
    ensures count { IfOk result (λ copy. copy.count ≡ tail.now.count) }
{
    let chunk = tail.chunk.clone()?;
    Ok(Tail {
        chunk,
        count: tail.count,
    })
}

/// Copies the bytes of full chunks behind some bytes.
fn copy_full(full: &[Rc<Chunk>], bytes: &mut Vec<u8>) -> Result<(), AllocError>
    ensures { OnOk result (bytes.new.items ≡ bytes.old.items ++ chunk_bytes full.now) }
{
    for chunk in full {
        bytes.extend_from_slice(&chunk.bytes)?;
    }
    Ok(())
}

/// The bytes of a tail.
fn filled(tail: &Tail) -> &[u8]
    requires { tail.now.count ≤ 512 }
    ensures { result.now ≡ tail_bytes tail.now }
{
    let (filled, _) = tail.chunk.bytes.split_at(tail.count);
    filled
}

impl Output {
    /// Nothing is put out yet.
    ///
    /// # Errors
    ///
    /// `AllocError` where memory for the empty list of chunks cannot be had.
    pub(crate) fn new(alloc: Global) -> Result<Self, AllocError>
        ensures { IfOk result (λ output. output ≡ []) }
    {
        let full = Rc::new(alloc, Vec::new(alloc))?;
        Ok(Output {
            alloc,
            full,
            tail: None,
        })
    }

    /// Puts a byte out.
    ///
    /// # Errors
    ///
    /// `AllocError` where a chunk, or a copy of one that is shared, cannot be had. The output is then as it was.
    pub(crate) fn push(&mut self, byte: u8) -> Result<(), AllocError>
        ensures ok { OnOk result (self.new ≡ self.old ++ byte ∷ []) }
        ensures err { OnErr result (self.new ≡ self.old) }
    {
        match &mut self.tail {
            Some(tail) => put_behind(&mut self.full, tail, self.alloc, byte),
            None => {
                self.tail = Some(tail_of(self.alloc, byte)?);
                Ok(())
            }
        }
    }

    /// The same output, which shares all its bytes.
    ///
    /// # Errors
    ///
    /// `AllocError` where a handle has as many copies as can be counted.
    pub(crate) fn snapshot(&self) -> Result<Self, AllocError>
        ensures { IfOk result (λ output. output ≡ self.now) }
    {
        let full = self.full.clone()?;
        let tail = match &self.tail {
            Some(tail) => Some(share(tail)?),
            None => None,
        };
        Ok(Output {
            alloc: self.alloc,
            full,
            tail,
        })
    }

    /// A copy of all bytes, in their order.
    ///
    /// # Errors
    ///
    /// `AllocError` where memory for the copy cannot be had.
    pub(crate) fn bytes(&self, alloc: Global) -> Result<Vec<u8>, AllocError>
        ensures { IfOk result (λ bytes. bytes.items ≡ self.now) }
    {
        let mut bytes = Vec::new(alloc);
        copy_full(&self.full, &mut bytes)?;
        if let Some(tail) = &self.tail {
            bytes.extend_from_slice(filled(tail))?;
        }
        Ok(bytes)
    }

    /// The place of the next byte.
    pub(crate) fn end(&self) -> OutputPlace
        ensures { IsEnd self.now result }
    {
        let full = self.full.len();
        match &self.tail {
            Some(tail) if tail.count < CHUNK_BYTES => OutputPlace {
                piece: full,
                place: tail.count,
            },
            Some(_) => OutputPlace {
                piece: full + 1,
                place: 0,
            },
            None => OutputPlace {
                piece: full,
                place: 0,
            },
        }
    }

    /// The bytes from 512 * `index` on, at most 512 of them; `None` where there are none. It takes no memory.
    pub(crate) fn piece(&self, index: usize) -> Option<&[u8]>
        ensures { option_map (λ s. s.now) result ≡ piece_of self.now index }
    {
        if let Some(chunk) = self.full.get(index) {
            return Some(&chunk.bytes);
        }
        match &self.tail {
            Some(tail) if index == self.full.len() => Some(filled(tail)),
            _ => None,
        }
    }
}
