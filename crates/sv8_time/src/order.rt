//! The order of places.

ghost use Rattle.std.specs.Prelude.{◌≡◌};
ghost use Rattle.sv8_time.specs.Order.{place_before};

/// Whether a place comes before another.
pub(crate) fn is_before(major: u32, minor: u32, other_major: u32, other_minor: u32) -> bool
    ensures { result ≡ place_before major minor other_major other_minor }
{
    major < other_major || (major == other_major && minor < other_minor)
}
