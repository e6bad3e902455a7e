//! What a step touches of the outside of the processor.

/// A touch of something outside the processor. Words of RAM are named by their physical address, a multiple of 4.
#[derive(Clone, Copy, PartialEq, Eq)]
pub enum Touch {
    /// A word of RAM is read, or a part of it is written, which leaves the rest.
    Read(u32),
    /// A word of RAM is written whole.
    Write(u32),
    /// A waiting byte of the console is taken, or the waiting bytes are counted.
    Input,
    /// Some interrupt levels are asked, bit l for level l, from 1 to 15.
    Levels(u16),
    /// The timer expires, which makes level 10 pending, whether it was or not.
    Expiry,
}

/// Which touches of words of RAM count.
#[derive(Clone, Copy, PartialEq, Eq)]
pub enum TouchKind {
    /// All of a step: those of its fetch and of walks through tables, and those of its data.
    Any,
    /// Those of its data: of a step that reads one word, and then may read one more or write another one, that second one.
    /// Of any other step all count. The access of an instruction touches data (`accesses_are_data` of `sv8_cpu`).
    Data,
}
