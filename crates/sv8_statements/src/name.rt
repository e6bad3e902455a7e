//! What tells a name from a reference to a local label.

ghost use Rattle.std.specs.Prelude.{◌≡◌};
ghost use Rattle.sv8_statements.specs.Names.{is_digit, is_reference};

/// Whether a byte is a decimal digit.
pub fn is_digit(byte: u8) -> bool
    ensures { result ≡ is_digit byte }
{
    byte.is_ascii_digit()
}

/// Whether the word is a reference to a local label, a digit and `f` or `b`.
pub fn is_reference(word: &[u8]) -> bool
    ensures { result ≡ is_reference word.now }
{
    match word {
        [digit, side] => is_digit(*digit) && (*side == b'f' || *side == b'b'),
        _ => false,
    }
}
