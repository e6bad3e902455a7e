//! RAM as translation sees it.

use crate::phys::Phys;
use std::alloc::AllocError;
use sv8_model::{Size, TableMemory, Touches};

impl<const PAGES: usize> TableMemory for Phys<PAGES> {
    ghost use Rattle.std.proofs.Common.{refl};
    ghost use Rattle.sv8_phys.specs.Memory.{ram_size};
    ghost use Rattle.sv8_phys.specs.Contents.{outside_of};

    ghost ram = { λ m. m.ram };

    ghost SIZE = { ram_size PAGES };

    ghost with_ram = { λ ram m. record m { ram = ram } };

    ghost outside = { λ bytes m. outside_of m bytes };

    ghost itself = { λ m. refl };

    #[inline(always)]
    fn size(&self) -> u64 {
        self.ram_size()
    }

    #[inline(always)]
    fn table_word(&self, at: u32) -> u32 {
        self.word(at)
    }

    #[inline(always)]
    fn store_table_word<T: Touches>(
        &mut self,
        at: u32,
        value: u32,
        notes: &mut T,
    ) -> Result<(), AllocError> {
        self.write_ram(at as u64, Size::Word, value as u64, notes)?;
        Ok(())
    }
}
