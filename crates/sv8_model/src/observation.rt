//! What an observer sees of a step, beside what it touches.

/// What an access does with memory (Appendices B.1 to B.8).
#[derive(Clone, Copy, PartialEq, Eq)]
pub enum AccessKind {
    Load,
    Store,
    /// SWAP and LDSTUB, which load and store in the same place.
    Exchange,
}

/// Something that a step did.
#[derive(Clone, Copy, PartialEq, Eq)]
pub enum Observation {
    /// An instruction was fetched from a physical address.
    Fetch {
        from: u64,
        word: u32,
    },
    /// The access of an instruction was made: so many bytes (1, 2, 4 or 8) at a virtual address, which is this physical
    /// one in RAM or of a device.
    Access {
        kind: AccessKind,
        bytes: u64,
        va: u32,
        pa: u64,
    },
    /// A trap of this type (tt) was taken; where traps are disabled, it led to error mode.
    Trap(u8),
}
