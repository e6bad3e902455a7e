//! Least offsets: which of some steps is the first.

ghost use Rattle.std.specs.Prelude.{ℕ, ◌==◌, ◌||◌, Bool};
ghost use Rattle.sv8_notes.specs.Steps.{IsFirstBelow, is_among};

/// The lesser of two offsets, where there are any.
pub(crate) fn lesser(found: Option<u32>, other: Option<u32>) -> Option<u32>
    ensures { (f g : ℕ → Bool) (from end : ℕ) → IsFirstBelow f from end found → IsFirstBelow g from end other → IsFirstBelow (λ n. f n || g n) from end result }
{
    match (found, other) {
        (Some(one), Some(other)) => Some(one.min(other)),
        (Some(one), None) => Some(one),
        (None, other) => other,
    }
}

/// An offset, if it is not below one and is below another.
pub(crate) fn within(offset: u32, from: u32, end: u32) -> Option<u32>
    ensures { IsFirstBelow (λ n. offset == n) from end result }
{
    if from <= offset && offset < end {
        Some(offset)
    } else {
        None
    }
}

/// The least of some offsets that is not below one and is below another.
pub(crate) fn first_among(offsets: &[u32], from: u32, end: u32) -> Option<u32>
    ensures { IsFirstBelow (λ n. is_among n offsets.now) from end result }
{
    let mut found = None;
    for offset in offsets {
        found = lesser(found, within(*offset, from, end));
    }
    found
}
