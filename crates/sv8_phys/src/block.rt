//! A block of RAM: what a store copies where snapshots share it.

ghost use Rattle.std.specs.Prelude.{◌≡◌, ◌<◌, ◌%◌, ◌/◌, ◌^◌, length, replicate, true, IfSome, OnOk, OnErr, MatchBool};
ghost use Rattle.sv8_model.specs.Outside.{word_of, with_word};
ghost use Rattle.sv8_model.specs.Size.{bytes_in};
ghost use Rattle.sv8_phys.specs.Bytes.{are_bytes};
ghost use Rattle.sv8_phys.specs.Differences.{next_difference};
ghost use Rattle.sv8_phys.specs.Memory.{value_at, with_value};

use byteorder::{BigEndian, ByteOrder};
use std::alloc::AllocError;
use std::rc::Rc;
use sv8_model::Size;

/// How many bytes a block has.
pub(crate) const BLOCK_SIZE: usize = 128;

/// The bytes of a block.
#[derive(Clone, Copy)]
pub(crate) struct Block {
    pub(crate) bytes: [u8; BLOCK_SIZE],
    ghost full: { length bytes ≡ 128 },
    ghost fit: { are_bytes bytes ≡ true },
}

impl Block {
    /// A block of zeros.
    pub(crate) fn zero() -> Block
        ensures { result.bytes ≡ replicate 128 0 }
    {
        Block {
            bytes: [0; BLOCK_SIZE],
        }
    }

    /// The word at a place in the block.
    #[inline(always)]
    pub(crate) fn word(&self, at: usize) -> u32
        requires within { at < 128 }
        requires aligned { at % 4 ≡ 0 }
        ensures { result ≡ word_of self.now.bytes (at / 4) }
    {
        BigEndian::read_u32(&self.bytes[at..])
    }

    /// Writes the word at a place in the block.
    #[inline(always)]
    fn set_word(&mut self, at: usize, value: u32)
        requires within { at < 128 }
        requires aligned { at % 4 ≡ 0 }
        ensures { self.new.bytes ≡ with_word self.old.bytes (at / 4) value }
    {
        BigEndian::write_u32(&mut self.bytes[at..], value);
    }

    /// Whether the block has the same bytes as another.
    pub(crate) fn is_same(&self, other: &Block) -> bool
        ensures { MatchBool result (self.now.bytes ≡ other.now.bytes) (self.now.bytes ≡ other.now.bytes → ⊥) }
    {
        self.bytes == other.bytes
    }

    /// The place of the first word, from a place on, that is another one in a second block.
    pub(crate) fn next_difference(&self, other: &Block, from: usize) -> Option<usize>
        requires within { from < 128 }
        requires aligned { from % 4 ≡ 0 }
        ensures value { result ≡ next_difference 128 self.now.bytes other.now.bytes from }
        ensures inside { IfSome result (λ at. at < 128) }
    {
        let mut at = from;
        while at < BLOCK_SIZE {
            if self.word(at) != other.word(at) {
                return Some(at);
            }
            at += 4;
        }
        None
    }

    /// The number at a place in the block.
    #[inline(always)]
    pub(crate) fn read(&self, at: usize, size: Size) -> u64
        requires within { at < 128 }
        requires aligned { at % bytes_in size ≡ 0 }
        ensures value { result ≡ value_at size at self.now.bytes }
        ensures fits { result < 256 ^ bytes_in size }
    {
        match size {
            Size::Byte => self.bytes[at] as u64,
            Size::Half => BigEndian::read_u16(&self.bytes[at..]) as u64,
            Size::Word => self.word(at) as u64,
            Size::Double => BigEndian::read_u64(&self.bytes[at..]),
        }
    }

    /// Writes the low bytes of a number at a place in the block.
    #[inline(always)]
    pub(crate) fn write(&mut self, at: usize, size: Size, value: u64)
        requires within { at < 128 }
        requires aligned { at % bytes_in size ≡ 0 }
        ensures { self.new.bytes ≡ with_value size at value self.old.bytes }
    {
        match size {
            Size::Byte => self.bytes[at] = (value % 0x100) as u8,
            Size::Half => BigEndian::write_u16(&mut self.bytes[at..], (value % 0x1_0000) as u16),
            Size::Word => self.set_word(at, (value % 0x1_0000_0000) as u32),
            Size::Double => BigEndian::write_u64(&mut self.bytes[at..], value),
        }
    }
}

/// Writes the low bytes of a number at a place in a block, unless the block is shared.
#[inline(always)]
pub(crate) fn write_unshared(block: &mut Rc<Block>, at: usize, size: Size, value: u64) -> bool
    requires within { at < 128 }
    requires aligned { at % bytes_in size ≡ 0 }
    ensures { MatchBool result (block.new.value.bytes ≡ with_value size at value block.old.value.bytes) (block.new.value ≡ block.old.value) }
{
    match Rc::get_mut(block) {
        Some(owned) => {
            owned.write(at, size, value);
            true
        }
        None => false,
    }
}

/// Writes the low bytes of a number at a place in a block; a shared block is copied first.
pub(crate) fn write_copying(
    block: &mut Rc<Block>,
    at: usize,
    size: Size,
    value: u64,
) -> Result<(), AllocError>
    requires within { at < 128 }
    requires aligned { at % bytes_in size ≡ 0 }
    ensures ok { OnOk result (block.new.value.bytes ≡ with_value size at value block.old.value.bytes) }
    ensures err { OnErr result (block.new.value ≡ block.old.value) }
{
    let owned = Rc::make_mut(block)?;
    owned.write(at, size, value);
    Ok(())
}
