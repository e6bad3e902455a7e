//! Lines as they were read.

ghost use Rattle.std.specs.Prelude.{◌≡◌, Ok, Err, MatchResult};
ghost use Rattle.sv8_model.specs.Refused.{ByFault};
ghost use Rattle.sv8_statements.specs.Names.{Defines};
ghost use Rattle.sv8_syntax.specs.Reading.{reading};

use std::alloc::Global;
use std::marker::Model;
use std::rc::Rc;
use sv8_model::Refused;
use sv8_statements::{LineFault, Stmt};
use sv8_syntax::parse_line;

/// A line's text with what it was read as.
#[derive(Drop)]
pub struct ReadLine {
    text: Vec<u8>,
    stmt: Stmt,
}

impl Model for ReadLine {
    ghost use Rattle.std.specs.Prelude.{◌≡◌, Ok};
    ghost use Rattle.sv8_statements.specs.Names.{Defines};
    ghost use Rattle.sv8_syntax.specs.Reading.{reading};
    ghost use Rattle.sv8_source.specs.Kept.{Reading};

    ghost Value = { Reading };

    ghost view = { λ l. record { text = l.text.items; stmt = l.stmt } };

    ghost invariant = { λ l. (reading l.text.items ≡ Ok l.stmt) × Defines l.stmt };
}

impl ReadLine {
    /// Reads a line.
    pub fn new(alloc: Global, text: &[u8]) -> Result<Rc<ReadLine>, Refused<LineFault>>
        ensures { MatchResult result (λ l. (reading text.now ≡ Ok l.value.stmt) × (l.value.text ≡ text.now))
            (ByFault (λ e. reading text.now ≡ Err e)) }
    {
        let stmt = parse_line(alloc, text)?;
        let text = Vec::from_slice(alloc, text)?;
        let line = Rc::new(alloc, ReadLine { text, stmt })?;
        Ok(line)
    }

    pub fn text(&self) -> &[u8]
        ensures { result.now ≡ self.now.text }
    {
        &self.text
    }

    /// The statement, as the text reads.
    pub fn stmt(&self) -> &Stmt
        ensures value { result.now ≡ self.now.stmt }
        ensures reading { reading self.now.text ≡ Ok self.now.stmt }
        ensures defines { Defines self.now.stmt }
    {
        let _text = &self.text;
        &self.stmt
    }
}
