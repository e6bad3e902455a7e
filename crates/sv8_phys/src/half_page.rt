//! A half of a page of RAM, in blocks.

ghost use Rattle.std.specs.Prelude.{◌≡◌, length};

use crate::block::{BLOCK_SIZE, Block, write_copying, write_unshared};
use std::alloc::{AllocError, Global};
use std::array::try_from_fn;
use std::rc::Rc;
use sv8_model::Size;

/// How many bytes a half of a page has.
pub(crate) const HALF_SIZE: usize = 2048;

/// How many blocks it has.
const BLOCKS: usize = 16;

/// A half of a page of RAM in blocks, each of which may be shared with other halves until it is written.
///
/// A checkpoint keeps the blocks that are stored into after it, and not the pages: a loop seldom stores into more than a
/// few blocks of a page. What is copied beside a block are the sixteen handles of its half.
#[derive(Drop)]
pub(crate) struct HalfPage {
    blocks: [Rc<Block>; BLOCKS],
    ghost all: { length blocks ≡ 16 },
}

impl Clone for HalfPage {
    ghost use Rattle.std.specs.Prelude.{◌≡◌};
    ghost use Rattle.sv8_phys.specs.Parts.{half_bytes};

    ghost is_clone = { λ half copy. half_bytes copy ≡ half_bytes half };

    fn clone(&self) -> Result<HalfPage, AllocError> {
        let blocks = self.blocks.clone()?;
        Ok(HalfPage { blocks })
    }
}

impl HalfPage {
    ghost use Rattle.std.specs.Prelude.{◌≡◌, ◌<◌, ◌%◌, ◌/◌, replicate, IfOk, OnOk, OnErr, MatchBool};
    ghost use Rattle.sv8_model.specs.Size.{bytes_in};
    ghost use Rattle.sv8_phys.specs.Memory.{with_value};
    ghost use Rattle.sv8_phys.specs.Parts.{half_bytes, part_of};

    /// A half of zeros, behind a handle.
    pub(crate) fn zero(alloc: Global) -> Result<Rc<HalfPage>, AllocError>
        ensures { IfOk result (λ half. half_bytes half.value ≡ replicate 2048 0) }
    {
        let blocks = try_from_fn(
            |_place: usize|
                ensures { IfOk result (λ block. block.value.bytes ≡ replicate 128 0) }
            { Rc::new(alloc, Block::zero()) },
        )?;
        let half = Rc::new(alloc, HalfPage { blocks })?;
        Ok(half)
    }

    /// The block that a place in the half is in.
    #[inline(always)]
    pub(crate) fn block(&self, at: usize) -> &Block
        requires { at < 2048 }
        ensures { result.now.bytes ≡ part_of 128 (half_bytes self.now) (at / 128) }
    {
        &*self.blocks[at / BLOCK_SIZE]
    }

    /// Writes the low bytes of a number at a place in the half, unless the block is shared.
    #[inline(always)]
    fn write_unshared_block(&mut self, at: usize, size: Size, value: u64) -> bool
        requires within { at < 2048 }
        requires aligned { at % bytes_in size ≡ 0 }
        ensures { MatchBool result (half_bytes self.new ≡ with_value size at value (half_bytes self.old)) (half_bytes self.new ≡ half_bytes self.old) }
    {
        let block = &mut self.blocks[at / BLOCK_SIZE];
        write_unshared(block, at % BLOCK_SIZE, size, value)
    }

    /// Writes the low bytes of a number at a place in the half; a shared block is copied first.
    fn write_copying_block(&mut self, at: usize, size: Size, value: u64) -> Result<(), AllocError>
        requires within { at < 2048 }
        requires aligned { at % bytes_in size ≡ 0 }
        ensures ok { OnOk result (half_bytes self.new ≡ with_value size at value (half_bytes self.old)) }
        ensures err { OnErr result (half_bytes self.new ≡ half_bytes self.old) }
    {
        let block = &mut self.blocks[at / BLOCK_SIZE];
        write_copying(block, at % BLOCK_SIZE, size, value)?;
        Ok(())
    }

    /// Writes the low bytes of a number at a place in a half, unless the half or the block is shared.
    #[inline(always)]
    pub(crate) fn write_unshared(half: &mut Rc<HalfPage>, at: usize, size: Size, value: u64) -> bool
        requires within { at < 2048 }
        requires aligned { at % bytes_in size ≡ 0 }
        ensures { MatchBool result (half_bytes half.new.value ≡ with_value size at value (half_bytes half.old.value)) (half_bytes half.new.value ≡ half_bytes half.old.value) }
    {
        match Rc::get_mut(half) {
            Some(owned) => owned.write_unshared_block(at, size, value),
            None => false,
        }
    }

    /// Writes the low bytes of a number at a place in a half; what is shared of the half and of the block is copied first.
    pub(crate) fn write_copying(
        half: &mut Rc<HalfPage>,
        at: usize,
        size: Size,
        value: u64,
    ) -> Result<(), AllocError>
        requires within { at < 2048 }
        requires aligned { at % bytes_in size ≡ 0 }
        ensures ok { OnOk result (half_bytes half.new.value ≡ with_value size at value (half_bytes half.old.value)) }
        ensures err { OnErr result (half_bytes half.new.value ≡ half_bytes half.old.value) }
    {
        let owned = Rc::make_mut(half)?;
        owned.write_copying_block(at, size, value)?;
        Ok(())
    }

    /// Whether the half has the same bytes as another.
    pub(crate) fn is_same(&self, other: &HalfPage) -> bool
        ensures { MatchBool result (half_bytes self.now ≡ half_bytes other.now) (half_bytes self.now ≡ half_bytes other.now → ⊥) }
    {
        for place in 0..BLOCKS {
            if !self.blocks[place].is_same(&other.blocks[place]) {
                return false;
            }
        }
        true
    }
}
