//! What happened in a step.

use sv8_phys::AccessKind;

/// How a step ended.
#[derive(Clone, Copy)]
pub enum Outcome {
    /// Nothing happened but events: the machine was in error mode before.
    Stop,
    /// Error mode began, since a trap of this type (tt) could not be taken (section 7.2).
    Error(u8),
    /// A trap or an interrupt of this type (tt) was taken.
    Trap(u8),
    /// An annulled slot was passed over.
    Annul,
    /// An instruction was carried out.
    Run,
}

/// The fetch of an instruction: where its word stands in RAM, and the word.
#[derive(Clone, Copy)]
pub struct Fetch {
    pub from: u64,
    pub word: u32,
}

/// The access of an instruction, which was made: so many bytes (1, 2, 4 or 8) at a virtual address, which is this physical one.
#[derive(Clone, Copy)]
pub struct Access {
    pub kind: AccessKind,
    pub bytes: u64,
    pub va: u32,
    pub pa: u64,
}

/// What happened in a step.
#[derive(Clone, Copy)]
pub struct Happening {
    /// The program counter before the step.
    pub pc: u32,
    /// The fetch, where one was made and met no fault.
    pub fetch: Option<Fetch>,
    pub outcome: Outcome,
    /// The access of the instruction, where one was made to memory or to a device and met no fault.
    pub access: Option<Access>,
    /// The byte that was taken from the console.
    pub taken: Option<u8>,
    /// The byte that was put out at the console.
    pub put: Option<u8>,
    /// The timer's count fell to 0, which makes level 10 pending.
    pub expired: bool,
    /// A poke, an input or a request stands in the timeline at this step.
    pub event: bool,
}
