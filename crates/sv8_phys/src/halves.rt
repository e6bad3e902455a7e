//! The two halves of a page.

ghost use Rattle.std.specs.Prelude.{◌≡◌, length};

use crate::block::Block;
use crate::half_page::{HALF_SIZE, HalfPage};
use std::alloc::AllocError;
use std::rc::Rc;
use sv8_model::Size;

/// How many halves a page has.
const HALVES: usize = 2;

/// The halves of a page, each of which may be shared with memories and other pages until it is written.
#[derive(Drop)]
pub(crate) struct Halves {
    halves: [Rc<HalfPage>; HALVES],
    ghost all: { length halves ≡ 2 },
}

impl Clone for Halves {
    ghost use Rattle.std.specs.Prelude.{◌≡◌};
    ghost use Rattle.sv8_phys.specs.Parts.{page_bytes};

    ghost is_clone = { λ page copy. page_bytes copy ≡ page_bytes page };

    fn clone(&self) -> Result<Halves, AllocError> {
        let halves = self.halves.clone()?;
        Ok(Halves { halves })
    }
}

impl Halves {
    ghost use Rattle.std.specs.Prelude.{◌≡◌, ◌<◌, ◌%◌, ◌/◌, ◌++◌, OnOk, OnErr, MatchBool};
    ghost use Rattle.sv8_model.specs.Size.{bytes_in};
    ghost use Rattle.sv8_phys.specs.Memory.{with_value};
    ghost use Rattle.sv8_phys.specs.Parts.{half_bytes, page_bytes, part_of};

    /// These two.
    pub(crate) fn new(low: Rc<HalfPage>, high: Rc<HalfPage>) -> Halves
        ensures { page_bytes result ≡ half_bytes low.value ++ half_bytes high.value }
    {
        Halves {
            halves: [low, high],
        }
    }

    /// The handle of one of them.
    pub(crate) fn half(&self, number: usize) -> &Rc<HalfPage>
        requires { number < 2 }
        ensures { half_bytes result.now.value ≡ part_of 2048 (page_bytes self.now) number }
    {
        &self.halves[number]
    }

    /// The block that a place in the page is in.
    pub(crate) fn block(&self, at: usize) -> &Block
        requires { at < 4096 }
        ensures { result.now.bytes ≡ part_of 128 (page_bytes self.now) (at / 128) }
    {
        self.half(at / HALF_SIZE).block(at % HALF_SIZE)
    }

    /// Writes the low bytes of a number at a place in the page; what is shared of its half and its block is copied first.
    pub(crate) fn write_copying(
        &mut self,
        at: usize,
        size: Size,
        value: u64,
    ) -> Result<(), AllocError>
        requires within { at < 4096 }
        requires aligned { at % bytes_in size ≡ 0 }
        ensures ok { OnOk result (page_bytes self.new ≡ with_value size at value (page_bytes self.old)) }
        ensures err { OnErr result (page_bytes self.new ≡ page_bytes self.old) }
    {
        let half = &mut self.halves[at / HALF_SIZE];
        HalfPage::write_copying(half, at % HALF_SIZE, size, value)?;
        Ok(())
    }

    /// Whether the page has the same bytes as another.
    pub(crate) fn is_same(&self, other: &Halves) -> bool
        ensures { MatchBool result (page_bytes self.now ≡ page_bytes other.now) (page_bytes self.now ≡ page_bytes other.now → ⊥) }
    {
        for place in 0..HALVES {
            if !self.halves[place].is_same(&other.halves[place]) {
                return false;
            }
        }
        true
    }
}
