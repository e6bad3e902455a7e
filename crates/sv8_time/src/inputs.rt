//! The input bytes of a timeline.

ghost use Rattle.std.specs.Prelude.{◌≡◌, ℕ, ◌+◌, ◌/◌, ◌≤◌, ◌<◌, [], ◌∷◌, ◌++◌, length, IfOk, OnOk, OnErr, true, false, slice_get, slice_index_or, slice_set, if◌then◌else◌};
ghost use Rattle.sv8_time.specs.Schedule.{input_of, has_input, put_input, cut_input, bytes_of_step, input_bytes, bytes_below};
ghost use Rattle.sv8_time.specs.Inputs.{joined, Spread};

use crate::block::Block;
use crate::starts::{Holder, count_started, recount, start_in};
use std::alloc::{AllocError, Global};
use std::marker::Model;

/// How many steps have their inputs in one block.
const STEPS: usize = 1_024;

impl Holder for Block {
    ghost use Rattle.sv8_time.specs.Inputs.{whole};

    ghost held = { whole };

    fn byte_total(&self) -> u32 {
        self.total()
    }
}

/// Inputs in rising step: a block for each 1,024 steps, up to the last step that ever had one, and the number of bytes
/// before each block.
///
/// An edit moves and counts the inputs of one block, and counts the blocks behind it.
#[derive(Drop)]
pub(crate) struct Inputs {
    blocks: Vec<Block>,
    starts: Vec<u32>,
    total: u32,
    count: usize,
}

impl Model for Inputs {
    ghost use Rattle.std.specs.Prelude.{List};
    ghost use Rattle.sv8_time.specs.Schedule.{Input};
    ghost use Rattle.sv8_time.specs.Inputs.{joined, Spread};

    ghost Value = { List Input };

    ghost view = { λ i. joined i.blocks.items };

    ghost invariant = { λ i. Spread i.blocks.items i.starts.items i.total i.count };
}

/// The number of the block of a step.
fn block_of(step: u32) -> usize
    ensures { result ≡ step / 1024 }
{
    step as usize / STEPS
}

/// Puts an empty block behind the others, which have `total` bytes.
fn add_block(
    blocks: &mut Vec<Block>,
    starts: &mut Vec<u32>,
    total: u32,
    alloc: Global,
) -> Result<(), AllocError>
    ensures ok { OnOk result (blocks.new.items ≡ blocks.old.items ++ [] ∷ []) }
    ensures starts { OnOk result (starts.new.items ≡ starts.old.items ++ total ∷ []) }
    ensures err { OnErr result (blocks.new.items ≡ blocks.old.items) }
    ensures starts_kept { OnErr result (starts.new.items ≡ starts.old.items) }
{
    starts.reserve(1)?;
    blocks.push(Block::new(alloc))?;
    starts.push(total)?;
    Ok(())
}

/// Makes empty blocks until there are as many as wanted.
fn grow(
    blocks: &mut Vec<Block>,
    starts: &mut Vec<u32>,
    total: u32,
    alloc: Global,
    wanted: usize,
) -> Result<(), AllocError>
    ensures ok { OnOk result (wanted ≤ length blocks.new.items) }
    ensures same { joined blocks.new.items ≡ joined blocks.old.items }
    ensures kept { (count : ℕ) → Spread blocks.old.items starts.old.items total count → Spread blocks.new.items starts.new.items total count }
{
    while blocks.len() < wanted {
        add_block(blocks, starts, total, alloc)?;
    }
    Ok(())
}

/// Copies of blocks.
fn copies_of(alloc: Global, blocks: &[Block]) -> Result<Vec<Block>, AllocError>
    ensures { IfOk result (λ v. v.items ≡ blocks.now) }
{
    let mut copies = Vec::with_capacity(alloc, blocks.len())?;
    for block in blocks {
        copies.push(block.copy(alloc)?)?;
    }
    Ok(copies)
}

/// Puts the bytes of a step into a block.
fn put_in(
    blocks: &mut Vec<Block>,
    index: usize,
    alloc: Global,
    step: u32,
    bytes: &[u8],
) -> Result<(), AllocError>
    requires within { index < length blocks.old.items }
    requires short { length bytes.now ≤ 1024 }
    requires room { has_input step (slice_index_or blocks.old.items index []) ≡ false → length (slice_index_or blocks.old.items index []) < 65536 }
    ensures ok { OnOk result (blocks.new.items ≡ slice_set blocks.old.items index (put_input (input_of step bytes.now) (slice_index_or blocks.old.items index []))) }
    ensures err { OnErr result (blocks.new.items ≡ blocks.old.items) }
{
    let block = &mut blocks[index];
    block.put(alloc, step, bytes)?;
    Ok(())
}

/// Removes the bytes of a step from a block.
fn cut_in(blocks: &mut Vec<Block>, index: usize, step: u32)
    requires within { index < length blocks.old.items }
    requires present { has_input step (slice_index_or blocks.old.items index []) ≡ true }
    ensures { blocks.new.items ≡ slice_set blocks.old.items index (cut_input step (slice_index_or blocks.old.items index [])) }
{
    let block = &mut blocks[index];
    block.cut(step);
}

impl Inputs {
    pub(crate) fn new(alloc: Global) -> Inputs
        ensures { result ≡ [] }
    {
        Inputs {
            blocks: Vec::new(alloc),
            starts: Vec::new(alloc),
            total: 0,
            count: 0,
        }
    }

    /// The same inputs once more.
    pub(crate) fn copy(&self, alloc: Global) -> Result<Inputs, AllocError>
        ensures { IfOk result (λ i. i ≡ self.now) }
    {
        let blocks = copies_of(alloc, &self.blocks)?;
        let starts = Vec::from_slice(alloc, &self.starts)?;
        Ok(Inputs {
            blocks,
            starts,
            total: self.total,
            count: self.count,
        })
    }

    pub(crate) fn count(&self) -> usize
        ensures { result ≡ length self.now }
    {
        let _blocks = &self.blocks;
        self.count
    }

    /// Whether there is an input in a step.
    pub(crate) fn has(&self, step: u32) -> bool
        ensures { result ≡ has_input step self.now }
    {
        match self.blocks.get(block_of(step)) {
            Some(block) => block.has(step),
            None => false,
        }
    }

    /// The number of bytes of all steps below one.
    pub(crate) fn delivered(&self, before: u32) -> u32
        ensures { result ≡ bytes_below before self.now }
    {
        let index = block_of(before);
        match self.blocks.get(index) {
            Some(block) => start_in(&self.starts, index) + block.delivered(before),
            None => self.total,
        }
    }

    /// A byte of all inputs in the order of their steps, from 0.
    pub(crate) fn byte(&self, index: u32) -> Option<u8>
        ensures { result ≡ slice_get (input_bytes self.now) index }
    {
        let _blocks = &self.blocks;
        let count = count_started(&self.starts, index);
        if count == 0 {
            return None;
        }
        let start = start_in(&self.starts, count - 1);
        let block = &self.blocks[count - 1];
        block.byte(index - start)
    }

    /// The bytes of a step, none where nothing comes in.
    pub(crate) fn at(&self, step: u32) -> &[u8]
        ensures value { result.now ≡ bytes_of_step step self.now }
        ensures short { length result.now ≤ 1024 }
    {
        match self.blocks.get(block_of(step)) {
            Some(block) => block.at(step),
            None => &[],
        }
    }

    /// How many inputs there are once a step has one.
    fn count_with(&self, step: u32) -> usize
        ensures { result ≡ (if has_input step self.now then length self.now else length self.now + 1) }
    {
        let _blocks = &self.blocks;
        if self.has(step) {
            self.count
        } else {
            self.count + 1
        }
    }

    /// Puts the bytes of a step, over those that stand there.
    pub(crate) fn put(&mut self, alloc: Global, step: u32, bytes: &[u8]) -> Result<(), AllocError>
        requires short { length bytes.now ≤ 1024 }
        requires room { has_input step self.old ≡ false → length self.old < 65536 }
        ensures value { OnOk result (self.new ≡ put_input (input_of step bytes.now) self.old) }
        ensures count { OnOk result (length self.new ≡ (if has_input step self.old then length self.old else length self.old + 1)) }
        ensures err { OnErr result (self.new ≡ self.old) }
    {
        let index = block_of(step);
        let count = self.count_with(step);
        grow(
            &mut self.blocks,
            &mut self.starts,
            self.total,
            alloc,
            index + 1,
        )?;
        put_in(&mut self.blocks, index, alloc, step, bytes)?;
        self.count = count;
        let before = start_in(&self.starts, index);
        self.total = recount(&self.blocks, &mut self.starts, index, before);
        Ok(())
    }

    /// Removes the bytes of a step.
    pub(crate) fn cut(&mut self, step: u32)
        requires { has_input step self.old ≡ true }
        ensures value { self.new ≡ cut_input step self.old }
        ensures count { length self.new ≤ length self.old }
    {
        let index = block_of(step);
        if index < self.blocks.len() {
            cut_in(&mut self.blocks, index, step);
            self.count -= 1;
            let before = start_in(&self.starts, index);
            self.total = recount(&self.blocks, &mut self.starts, index, before);
        }
    }
}
