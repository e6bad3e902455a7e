//! Numbers.

ghost use Rattle.std.specs.Prelude.{◌≡◌, ◌<◌, ◌≤◌, None};
ghost use Rattle.sv8_tokens.specs.Lexing.{digit_of, number_from, numeral_of};

fn digit(base: u32, byte: u8) -> Option<u32>
    requires { base ≤ 16 }
    ensures { result ≡ digit_of base byte }
{
    let value = match byte {
        b'0'..=b'9' => byte - b'0',
        b'a'..=b'f' => byte - b'a' + 10,
        b'A'..=b'F' => byte - b'A' + 10,
        _ => return None,
    };
    let value = u32::from(value);
    if value < base { Some(value) } else { None }
}

#[tactic(auto, unfolding(crate::specs::Lexing::number_from))]
fn digits(base: u32, text: &[u8]) -> Option<u32>
    requires { base ≤ 16 }
    ensures { result ≡ number_from base 0 text.now }
{
    let mut number = 0u32;
    for byte in text {
        let value = digit(base, *byte)?;
        number = number.checked_mul(base)?.checked_add(value)?;
    }
    Some(number)
}

/// The number that these digits spell.
#[tactic(auto, unfolding(crate::specs::Lexing::numeral_of))]
pub fn numeral(text: &[u8]) -> Option<u32>
    ensures { result ≡ numeral_of text.now }
{
    match text {
        [] => None,
        [b'0'] => Some(0),
        [b'0', b'x', _, ..] => digits(16, &text[2..]),
        [b'0', ..] => None,
        _ => digits(10, text),
    }
}
