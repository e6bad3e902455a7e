//! The r registers.

ghost use Rattle.std.specs.Prelude.{◌≡◌, ◌<◌};
ghost use Rattle.sv8_statements.specs.Registers.{number_of_register};

/// An r register, by the name that it has in the window (section 4.1).
#[derive(Clone, Copy)]
pub enum Register {
    G0,
    G1,
    G2,
    G3,
    G4,
    G5,
    G6,
    G7,
    O0,
    O1,
    O2,
    O3,
    O4,
    O5,
    O6,
    O7,
    L0,
    L1,
    L2,
    L3,
    L4,
    L5,
    L6,
    L7,
    I0,
    I1,
    I2,
    I3,
    I4,
    I5,
    I6,
    I7,
}

impl Register {
    /// The number of the register, as it stands in an instruction's word.
    pub fn number(self) -> u8
        ensures value { result ≡ number_of_register self }
        ensures below { result < 32 }
    {
        self as u8
    }
}
