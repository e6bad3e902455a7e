//! What comes in at the console.

ghost use Rattle.std.specs.Prelude.{◌≡◌, length, slice_get};

/// The bytes that come in at the console, each at a step.
pub trait Arrivals {
    ghost use Rattle.std.specs.Prelude.{ℕ, List};

    // The bytes that come in at the steps below one, in the order of the steps.
    ghost arrived: { ℕ → Self → List ℕ };

    /// How many bytes come in at the steps below `before`.
    fn count_below(&self, before: u32) -> u32
        ensures { result ≡ length (arrived before self.now) };

    /// Number k, from 0, of the bytes that come in at the steps below `before`; none where fewer come in.
    fn byte_below(&self, before: u32, k: u32) -> Option<u8>
        ensures { result ≡ slice_get (arrived before self.now) k };
}
