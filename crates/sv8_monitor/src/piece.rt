//! Pieces of an answer's text, one after the other.

ghost use Rattle.std.specs.Prelude.{◌++◌};
ghost use Rattle.sv8_session.specs.Put.{Puts};
ghost use Rattle.sv8_commands.specs.Put.{Gains};
ghost use Rattle.sv8_commands.specs.Text.{numbered_text, ok_line};

use std::io::Write;
use sv8_commands::put::{WriteFault, accept, make_room};
use sv8_commands::text::Text;

/// How long the text of a piece is at most.
const LONGEST: usize = 160;

/// What has a text of at most 160 bytes.
pub trait Piece {
    ghost use Rattle.std.specs.Prelude.{◌≡◌, ℕ, ◌+◌, ◌≤◌, ◌++◌, List, length};

    // Its text.
    ghost piece_text: { Self → List ℕ };

    /// Adds the text to another.
    fn add_to(&self, text: &mut Text)
        requires { length text.old + 160 ≤ 4096 }
        ensures { text.new ≡ text.old ++ piece_text self.now };
}

/// The text of a piece; what waits before it is put where there is no room for both.
fn put_piece<W: Write, P: Piece>(
    writer: &mut W,
    text: &mut Text,
    piece: &P,
) -> Result<(), WriteFault>
    ensures { Gains result (W.contents writer.old) (W.contents writer.new) text.old text.new (P.piece_text piece.now) }
{
    make_room(writer, text, LONGEST)?;
    piece.add_to(text);
    Ok(())
}

/// The texts of all pieces.
pub fn put_pieces<W: Write, P: Piece>(
    writer: &mut W,
    text: &mut Text,
    pieces: &[P],
) -> Result<(), WriteFault>
    ensures { Gains result (W.contents writer.old) (W.contents writer.new) text.old text.new
        (numbered_text (λ i p. P.piece_text p) 0 pieces.now) }
{
    for piece in pieces {
        put_piece(writer, text, piece)?;
    }
    Ok(())
}

/// Answers the texts of all pieces.
pub fn tell_pieces<W: Write, P: Piece>(writer: &mut W, pieces: &[P]) -> Result<(), WriteFault>
    ensures { Puts result (W.contents writer.old) (W.contents writer.new)
        (numbered_text (λ i p. P.piece_text p) 0 pieces.now ++ ok_line) }
{
    let mut text = Text::new();
    put_pieces(writer, &mut text, pieces)?;
    accept(writer, &mut text)
}
