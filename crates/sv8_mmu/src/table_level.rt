//! The levels of the tables.

ghost use Rattle.std.specs.Prelude.{◌≡◌, ◌≤◌};
ghost use Rattle.sv8_mmu.specs.TableLevels.{level_number};

/// Which table an entry stands in, as the fault status register tells it. Appendix H, the fault status register.
#[derive(Clone, Copy, PartialEq, Eq)]
pub enum TableLevel {
    /// The context table, level 0. A page entry in it maps 4 GiB.
    Context,
    /// A table of level 1. A page entry in it maps 16 MiB.
    Level1,
    /// A table of level 2. A page entry in it maps 256 KiB.
    Level2,
    /// A table of level 3. A page entry in it maps 4 KiB.
    Level3,
}

impl TableLevel {
    /// The number of the level, from 0 to 3.
    pub fn number(self) -> u8
        ensures value { result ≡ level_number self }
        ensures small { result ≤ 3 }
    {
        match self {
            TableLevel::Context => 0,
            TableLevel::Level1 => 1,
            TableLevel::Level2 => 2,
            TableLevel::Level3 => 3,
        }
    }
}
