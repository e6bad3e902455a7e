//! The sizes of accesses.

ghost use Rattle.std.specs.Prelude.{◌≡◌, ◌≤◌};
ghost use Rattle.sv8_model.specs.Size.{bytes_in};

/// How much an access loads or stores (Appendix B.1 and B.4 of the manual).
#[derive(Clone, Copy, PartialEq, Eq)]
pub enum Size {
    /// 1 byte.
    Byte,
    /// 2 bytes.
    Half,
    /// 4 bytes.
    Word,
    /// 8 bytes.
    Double,
}

impl Size {
    /// How many bytes an access takes; its address is a multiple of it.
    pub fn bytes(self) -> u64
        ensures value { result ≡ bytes_in self }
        ensures some { 1 ≤ result }
    {
        match self {
            Size::Byte => 1,
            Size::Half => 2,
            Size::Word => 4,
            Size::Double => 8,
        }
    }
}
