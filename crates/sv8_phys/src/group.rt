//! A group of halves of pages of RAM, behind one handle.

ghost use Rattle.std.specs.Prelude.{◌≡◌, length};

use crate::half_page::{HALF_SIZE, HalfPage};
use std::alloc::{AllocError, Global};
use std::array::try_from_fn;
use std::rc::Rc;
use sv8_model::Size;

/// How many halves of pages a group has.
pub(crate) const GROUP_HALVES: usize = 16;

/// How many bytes they have.
pub(crate) const GROUP_SIZE: usize = 16 * HALF_SIZE;

/// Halves of pages of RAM, one after the other, each of which may be shared with other groups until it is written.
///
/// A snapshot takes a handle for each group. A store copies the sixteen handles of its group where a snapshot has it too,
/// and those of no other, wherever in RAM a program keeps its stack.
#[derive(Drop)]
pub(crate) struct Group {
    pub(crate) halves: [Rc<HalfPage>; GROUP_HALVES],
    ghost all: { length halves ≡ 16 },
}

impl Clone for Group {
    ghost use Rattle.std.specs.Prelude.{◌≡◌};
    ghost use Rattle.sv8_phys.specs.Parts.{halves_of};

    ghost is_clone = { λ group copy. halves_of copy.halves ≡ halves_of group.halves };

    fn clone(&self) -> Result<Group, AllocError> {
        let halves = self.halves.clone()?;
        Ok(Group { halves })
    }
}

impl Group {
    ghost use Rattle.std.specs.Prelude.{◌≡◌, ◌+◌, ◌<◌, ◌%◌, ◌/◌, replicate, slice_set, IfOk, OnOk, OnErr, MatchBool};
    ghost use Rattle.sv8_model.specs.Size.{bytes_in};
    ghost use Rattle.sv8_phys.specs.Parts.{half_bytes, halves_of, part_at, with_value_in};

    /// A group of halves of zeros.
    ///
    /// Each has a handle of its own: where a copy counted up for sixteen handles of one half, each would wait for the count of
    /// the one before it.
    pub(crate) fn zero(alloc: Global) -> Result<Group, AllocError>
        ensures { IfOk result (λ group. halves_of group.halves ≡ replicate 16 (replicate 2048 0)) }
    {
        let halves = try_from_fn(
            |_place: usize|
                ensures { IfOk result (λ half. half_bytes half.value ≡ replicate 2048 0) }
            { HalfPage::zero(alloc) },
        )?;
        Ok(Group { halves })
    }

    /// The handle of one of the halves.
    #[inline(always)]
    pub(crate) fn half(&self, place: usize) -> &Rc<HalfPage>
        requires { place < 16 }
        ensures { half_bytes result.now.value ≡ part_at (halves_of self.now.halves) place }
    {
        &self.halves[place]
    }

    /// Writes the low bytes of a number at a place in the group, unless its half or its block is shared.
    #[inline(always)]
    fn write_unshared_half(&mut self, at: usize, size: Size, value: u64) -> bool
        requires within { at < 32768 }
        requires aligned { at % bytes_in size ≡ 0 }
        ensures { MatchBool result (halves_of self.new.halves ≡ with_value_in size at value (halves_of self.old.halves)) (halves_of self.new.halves ≡ halves_of self.old.halves) }
    {
        let half = &mut self.halves[at / HALF_SIZE];
        HalfPage::write_unshared(half, at % HALF_SIZE, size, value)
    }

    /// Writes the low bytes of a number at a place in the group; what is shared of its half and its block is copied first.
    fn write_copying_half(&mut self, at: usize, size: Size, value: u64) -> Result<(), AllocError>
        requires within { at < 32768 }
        requires aligned { at % bytes_in size ≡ 0 }
        ensures ok { OnOk result (halves_of self.new.halves ≡ with_value_in size at value (halves_of self.old.halves)) }
        ensures err { OnErr result (halves_of self.new.halves ≡ halves_of self.old.halves) }
    {
        let half = &mut self.halves[at / HALF_SIZE];
        HalfPage::write_copying(half, at % HALF_SIZE, size, value)?;
        Ok(())
    }

    /// Writes the low bytes of a number at a place in a group, unless the group, the half or the block is shared.
    #[inline(always)]
    pub(crate) fn write_unshared(group: &mut Rc<Group>, at: usize, size: Size, value: u64) -> bool
        requires within { at < 32768 }
        requires aligned { at % bytes_in size ≡ 0 }
        ensures { MatchBool result (halves_of group.new.value.halves ≡ with_value_in size at value (halves_of group.old.value.halves)) (halves_of group.new.value.halves ≡ halves_of group.old.value.halves) }
    {
        match Rc::get_mut(group) {
            Some(owned) => owned.write_unshared_half(at, size, value),
            None => false,
        }
    }

    /// Writes the low bytes of a number at a place in a group; what is shared of group, half and block is copied first.
    pub(crate) fn write_copying(
        group: &mut Rc<Group>,
        at: usize,
        size: Size,
        value: u64,
    ) -> Result<(), AllocError>
        requires within { at < 32768 }
        requires aligned { at % bytes_in size ≡ 0 }
        ensures ok { OnOk result (halves_of group.new.value.halves ≡ with_value_in size at value (halves_of group.old.value.halves)) }
        ensures err { OnErr result (halves_of group.new.value.halves ≡ halves_of group.old.value.halves) }
    {
        let owned = Rc::make_mut(group)?;
        owned.write_copying_half(at, size, value)?;
        Ok(())
    }

    /// Puts two halves in the places of others, one after the other.
    fn put_halves(&mut self, place: usize, low: Rc<HalfPage>, high: Rc<HalfPage>)
        requires { place + 1 < 16 }
        ensures { halves_of self.new.halves ≡ slice_set (slice_set (halves_of self.old.halves) place (half_bytes low.value)) (place + 1) (half_bytes high.value) }
    {
        self.halves[place] = low;
        self.halves[place + 1] = high;
    }

    /// The same; a group that is shared is copied first.
    pub(crate) fn put(
        group: &mut Rc<Group>,
        place: usize,
        low: Rc<HalfPage>,
        high: Rc<HalfPage>,
    ) -> Result<(), AllocError>
        requires { place + 1 < 16 }
        ensures ok { OnOk result (halves_of group.new.value.halves ≡ slice_set (slice_set (halves_of group.old.value.halves) place (half_bytes low.value)) (place + 1) (half_bytes high.value)) }
        ensures err { OnErr result (halves_of group.new.value.halves ≡ halves_of group.old.value.halves) }
    {
        let owned = Rc::make_mut(group)?;
        owned.put_halves(place, low, high);
        Ok(())
    }
}
