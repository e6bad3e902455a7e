//! What is read of a checkpoint.

use sv8_phys::OutputPlace;

/// What is read of a checkpoint where it is kept, with no memory taken.
#[derive(Clone, Copy)]
pub struct Checkpoint {
    /// Whether the machine runs; if not, it is in error mode (chapter 7).
    pub running: bool,
    /// How many bytes of the console's input have been taken.
    pub taken: u32,
    /// The place in the output of the next byte that is put out.
    pub output_end: OutputPlace,
}
