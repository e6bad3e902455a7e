//! Texts between quotes, and the escapes in them.

ghost use Rattle.std.specs.Prelude.{◌≡◌, false};
ghost use Rattle.sv8_statements.specs.Operand.{operand_view};
ghost use Rattle.sv8_statements.specs.Outcome.{Gives};
ghost use Rattle.sv8_forms.specs.Escapes.{escape_of, resolved};
ghost use Rattle.sv8_forms.specs.Taking.{text_in};

use std::alloc::Global;
use sv8_statements::{Operand, Read, SYNTAX, Text};

/// What a byte behind a backslash stands for.
#[tactic(auto, unfolding(crate::specs::Escapes::escape_of))]
fn escape(byte: u8) -> Option<u8>
    ensures { result ≡ escape_of byte }
{
    match byte {
        b'n' => Some(b'\n'),
        b't' => Some(b'\t'),
        b'0' => Some(b'\0'),
        b'\\' => Some(b'\\'),
        b'"' => Some(b'"'),
        _ => None,
    }
}

/// The bytes of a text, with what its escapes stand for.
#[tactic(auto, unfolding(crate::specs::Escapes::resolved))]
fn resolved(alloc: Global, text: &[u8]) -> Read<Vec<u8>>
    ensures { Gives (λ v. v.items) result (resolved false text.now) }
{
    let mut bytes = Vec::new(alloc);
    let mut escaped = false;
    for byte in text {
        if escaped {
            bytes.push(escape(*byte).ok_or(SYNTAX)?)?;
            escaped = false;
            continue;
        }
        if *byte == b'\\' {
            escaped = true;
            continue;
        }
        bytes.push(*byte)?;
    }
    if escaped { Err(SYNTAX) } else { Ok(bytes) }
}

/// The bytes of a text between quotes.
#[tactic(auto, unfolding(crate::specs::Taking::text_in))]
pub fn text_in(alloc: Global, operand: &Operand<'_>) -> Read<Text>
    ensures { Gives (λ t. t) result (text_in (operand_view operand.now)) }
{
    match operand {
        Operand::Quoted(q) => {
            let bytes = resolved(alloc, q)?;
            Ok(Text::new(bytes))
        }
        _ => Err(SYNTAX),
    }
}
