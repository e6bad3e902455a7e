//! The words of a line, and the numbers among them.
ghost use Rattle.std.specs.Prelude.{true, ◌≡◌, ◌+◌, ◌-◌, ◌*◌, ◌^◌, ◌<◌, ◌≤◌, ◌∷◌, [], Some, None, IfSome, MatchOption};
ghost use Rattle.sv8_commands.specs.Words.{is_gap, words_of, number_of_word, starts_word, is_hex, hex_value, hex_of_word};

/// The number of 1 to 10 decimal digits, below 2^32.
#[tactic(auto, unfolding(crate::specs::Words::number_of_word))]
pub fn number(word: &[u8]) -> Option<u32>
    ensures { result ≡ number_of_word word.now }
{
    if word.is_empty() || word.len() > 10 {
        return None;
    }
    let mut n = 0u64;
    for b in word {
        if *b < 48 || *b > 57 {
            return None;
        }
        n = n * 10 + u64::from(*b - 48);
    }
    if n < 4_294_967_296 {
        Some(n as u32)
    } else {
        None
    }
}

fn is_gap(b: u8) -> bool
    ensures { result ≡ is_gap b }
{
    b == b' ' || b == b'\t'
}

/// The first word of a text, and what follows it.
pub fn next_word(text: &[u8]) -> Option<(&[u8], &[u8])>
    ensures { MatchOption result (words_of text.now ≡ [])
        (λ r. words_of text.now ≡ r.0.now ∷ words_of r.1.now) }
{
    let mut rest = text;
    while let [b, more @ ..] = rest {
        if !is_gap(*b) {
            return Some(first_word(rest));
        }
        rest = more;
    }
    None
}

/// The word that a text begins with.
fn first_word(text: &[u8]) -> (&[u8], &[u8])
    requires { starts_word text.now ≡ true }
    ensures { words_of text.now ≡ result.0.now ∷ words_of result.1.now }
{
    for (end, b) in text.iter().enumerate() {
        if is_gap(*b) {
            return (&text[..end], &text[end..]);
        }
    }
    (text, &text[text.len()..])
}

/// Whether a byte is a hexadecimal digit, of either case.
pub fn is_hex(b: u8) -> bool
    ensures { result ≡ is_hex b }
{
    matches!(b, b'0'..=b'9' | b'A'..=b'F' | b'a'..=b'f')
}

/// The value of a hexadecimal digit.
pub fn hex_value(b: u8) -> u8
    requires { is_hex b ≡ true }
    ensures value { result ≡ hex_value b }
    ensures digit { result < 16 }
{
    match b {
        b'0'..=b'9' => b - b'0',
        b'A'..=b'F' => b - b'A' + 10,
        _ => b - b'a' + 10,
    }
}

/// The number of 1 to so many hexadecimal digits.
#[tactic(auto, unfolding(crate::specs::Words::hex_of_word))]
pub fn hex(word: &[u8], most: usize) -> Option<u32>
    requires { most ≤ 8 }
    ensures value { result ≡ hex_of_word most word.now }
    ensures bound { IfSome result (λ n. n < 16 ^ most) }
{
    if word.is_empty() || word.len() > most {
        return None;
    }
    let mut n = 0u64;
    for b in word {
        if !is_hex(*b) {
            return None;
        }
        n = n * 16 + u64::from(hex_value(*b));
    }
    Some(n as u32)
}
