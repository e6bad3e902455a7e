//! The directory of RAM: the handles of groups of the halves of its pages, of which each snapshot has a copy.

ghost use Rattle.std.specs.Prelude.{◌≡◌, length};

use crate::group::{GROUP_HALVES, GROUP_SIZE, Group};
use crate::half_page::HalfPage;
use crate::halves::Halves;
use std::alloc::{AllocError, Global};
use std::rc::Rc;
use sv8_model::Size;

/// The groups of the halves of the pages of RAM from address 0 on, up to the last one that was written. Each may be shared
/// with other directories until it is written. All halves behind them are of zeros.
///
/// So a copy of the directory costs no more than the part of RAM that a program needs.
#[derive(Drop)]
pub(crate) struct Directory {
    pub(crate) groups: Vec<Rc<Group>>,
}

impl Clone for Directory {
    ghost use Rattle.std.specs.Prelude.{◌≡◌};
    ghost use Rattle.sv8_phys.specs.Parts.{groups_halves};

    ghost is_clone = { λ directory copy. groups_halves copy.groups.items ≡ groups_halves directory.groups.items };

    fn clone(&self) -> Result<Directory, AllocError> {
        let groups = self.groups.clone()?;
        Ok(Directory { groups })
    }
}

impl Directory {
    ghost use Rattle.std.specs.Prelude.{◌≡◌, ℕ, ◌*◌, ◌/◌, ◌<◌, ◌%◌, [], replicate, length, OnOk, OnErr, MatchBool};
    ghost use Rattle.sv8_model.specs.Size.{bytes_in};
    ghost use Rattle.sv8_phys.specs.Parts.{half_bytes, halves_of, groups_halves, part_of, ram_bytes, IsPut, IsSame, IsWritten};

    /// Of RAM that is all zeros. It takes no memory.
    pub(crate) fn new(alloc: Global) -> Directory
        ensures { result.groups.items ≡ [] }
    {
        Directory {
            groups: Vec::new(alloc),
        }
    }

    /// The handle of a half of a page, or of one of a group of zeros where its group was never written.
    #[inline(always)]
    pub(crate) fn half<'a>(&'a self, zeros: &'a Group, half: usize) -> &'a Rc<HalfPage>
        requires { halves_of zeros.now.halves ≡ replicate 16 (replicate 2048 0) }
        ensures { (pages : ℕ) → half < 2 * pages → half_bytes result.now.value ≡ part_of 2048 (ram_bytes pages (groups_halves self.now.groups.items)) half }
    {
        let group = half / GROUP_HALVES;
        if group < self.groups.len() {
            self.groups[group].half(half % GROUP_HALVES)
        } else {
            zeros.half(half % GROUP_HALVES)
        }
    }

    /// Makes places for the groups up to one.
    fn reach(&mut self, zeros: &Rc<Group>, group: usize) -> Result<(), AllocError>
        requires { halves_of zeros.now.value.halves ≡ replicate 16 (replicate 2048 0) }
        ensures same { IsSame (groups_halves self.old.groups.items) (groups_halves self.new.groups.items) }
        ensures reached { OnOk result (group < length self.new.groups.items) }
    {
        while self.groups.len() <= group {
            let zero = zeros.clone()?;
            self.groups.push(zero)?;
        }
        Ok(())
    }

    /// Writes the low bytes of a number at an address, unless its group is one of those behind, or the group, the half or the
    /// block is shared.
    #[inline(always)]
    fn write_unshared(&mut self, at: usize, size: Size, value: u64) -> bool
        requires { at % bytes_in size ≡ 0 }
        ensures { MatchBool result (IsWritten size at value (groups_halves self.old.groups.items) (groups_halves self.new.groups.items))
            (IsSame (groups_halves self.old.groups.items) (groups_halves self.new.groups.items)) }
    {
        let group = at / GROUP_SIZE;
        if group >= self.groups.len() {
            return false;
        }
        let handle = &mut self.groups[group];
        Group::write_unshared(handle, at % GROUP_SIZE, size, value)
    }

    /// Writes the low bytes of a number at an address; what is shared of its group, its half and its block is copied first. What
    /// it needs of the stack stays out of the way of a write that copies nothing.
    #[cold]
    #[inline(never)]
    fn write_copying(
        &mut self,
        zeros: &Rc<Group>,
        at: usize,
        size: Size,
        value: u64,
    ) -> Result<(), AllocError>
        requires aligned { at % bytes_in size ≡ 0 }
        requires zeros { halves_of zeros.now.value.halves ≡ replicate 16 (replicate 2048 0) }
        ensures ok { OnOk result (IsWritten size at value (groups_halves self.old.groups.items) (groups_halves self.new.groups.items)) }
        ensures err { OnErr result (IsSame (groups_halves self.old.groups.items) (groups_halves self.new.groups.items)) }
    {
        let group = at / GROUP_SIZE;
        self.reach(zeros, group)?;
        let handle = &mut self.groups[group];
        Group::write_copying(handle, at % GROUP_SIZE, size, value)?;
        Ok(())
    }

    /// The same, with nothing copied where nothing is shared. It is a call of its own, so that what makes a step has room
    /// for its values in registers.
    #[inline(never)]
    pub(crate) fn write(
        &mut self,
        zeros: &Rc<Group>,
        at: usize,
        size: Size,
        value: u64,
    ) -> Result<(), AllocError>
        requires aligned { at % bytes_in size ≡ 0 }
        requires zeros { halves_of zeros.now.value.halves ≡ replicate 16 (replicate 2048 0) }
        ensures ok { OnOk result (IsWritten size at value (groups_halves self.old.groups.items) (groups_halves self.new.groups.items)) }
        ensures err { OnErr result (IsSame (groups_halves self.old.groups.items) (groups_halves self.new.groups.items)) }
    {
        if self.write_unshared(at, size, value) {
            return Ok(());
        }
        self.write_copying(zeros, at, size, value)?;
        Ok(())
    }

    /// Puts a page in the place of another one; a group that is shared is copied first.
    pub(crate) fn put_page(
        &mut self,
        zeros: &Rc<Group>,
        page: usize,
        halves: &Halves,
    ) -> Result<(), AllocError>
        requires page { page < 65536 }
        requires zeros { halves_of zeros.now.value.halves ≡ replicate 16 (replicate 2048 0) }
        ensures ok { OnOk result (IsPut page halves.now (groups_halves self.old.groups.items) (groups_halves self.new.groups.items)) }
        ensures err { OnErr result (IsSame (groups_halves self.old.groups.items) (groups_halves self.new.groups.items)) }
    {
        let low = halves.half(0).clone()?;
        let high = halves.half(1).clone()?;
        let group = 2 * page / GROUP_HALVES;
        self.reach(zeros, group)?;
        Group::put(&mut self.groups[group], 2 * page % GROUP_HALVES, low, high)?;
        Ok(())
    }
}
