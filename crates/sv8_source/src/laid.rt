//! The two passes over the lines of a source.
//!
//! The layout pass reads each line, gives its names their values and finds the location of each line. The value pass
//! then assembles each line, now that all names are known, so that a line may use a name that a later one defines.

ghost use Rattle.std.specs.Prelude.{◌≡◌, ◌+◌, ◌-◌, ◌^◌, ◌<◌, ◌≤◌, [], IfSome, IfOk, MatchResult, Ok, Err, length, All};
ghost use Rattle.sv8_model.specs.Refused.{ByFault};
ghost use Rattle.sv8_statements.specs.Names.{IsLabel, Defines};
ghost use Rattle.sv8_syntax.specs.Reading.{reading};
ghost use Rattle.sv8_source.specs.Layout.{define, define_label, define_equ, moved, with_stmt, with_line, laid, valued, start, HasSize};
ghost use Rattle.sv8_source.specs.Edits.{Sound};
ghost use Rattle.sv8_source.specs.Kept.{code_bytes};
ghost use Rattle.sv8_source.specs.Spaced.{Spaced};
ghost use Rattle.sv8_source.specs.Text.{texts, place_texts};

use crate::assembled::Assembled;
use crate::fault::{SourceFault, in_line};
use crate::reading::ReadLine;
use crate::valued::{Behind, code_of};
use std::alloc::{AllocError, Global};
use std::marker::Model;
use std::rc::Rc;
use sv8_asm::{Symbols, constant, size_of};
use sv8_model::Refused;
use sv8_statements::{Label, LineFault, Name, Statement, Stmt};

/// A line as it was read, and the location before its statement. The line is shared by all sources that have it.
#[derive(Drop)]
pub struct Placed {
    line: Rc<ReadLine>,
    at: u32,
}

impl Model for Placed {
    ghost use Rattle.sv8_source.specs.Layout.{Place, HasSize};

    ghost Value = { Place };

    ghost view = { λ p. record { text = p.line.value.text; stmt = p.line.value.stmt; at = p.at } };
}

impl Placed {
    pub fn new(line: Rc<ReadLine>, at: u32) -> Placed
        ensures { result ≡ record { text = line.value.text; stmt = line.value.stmt; at = at } }
    {
        Placed { line, at }
    }

    /// The same place, with the same line.
    pub fn share(&self) -> Result<Placed, AllocError>
        ensures { IfOk result (λ p. p ≡ self.now) }
    {
        let line = self.line.clone()?;
        Ok(Placed { line, at: self.at })
    }

    pub fn text(&self) -> &[u8]
        ensures { result.now ≡ self.now.text }
    {
        self.line.text()
    }

    /// The statement, as the text reads.
    pub fn stmt(&self) -> &Stmt
        ensures value { result.now ≡ self.now.stmt }
        ensures reading { reading self.now.text ≡ Ok self.now.stmt }
        ensures defines { Defines self.now.stmt }
    {
        self.line.stmt()
    }

    pub fn at(&self) -> u32
        ensures { result ≡ self.now.at }
    {
        self.at
    }
}

/// The lines so far with their places and names.
#[derive(Drop)]
pub struct Laid {
    places: Vec<Placed>,
    symbols: Symbols,
    at: u32,
}

impl Model for Laid {
    ghost use Rattle.std.specs.Prelude.{All, ◌≤◌};
    ghost use Rattle.sv8_source.specs.Layout.{Layout, HasSize};
    ghost use Rattle.sv8_source.specs.Spaced.{Spaced};

    ghost Value = { Layout };

    ghost view = { λ l. record { places = l.places.items; symbols = l.symbols; at = l.at } };

    ghost invariant = { λ l. All HasSize l.places.items × Spaced 0 l.places.items l.at };
}

/// Gives a name its value, where no line above defines it.
fn define(
    alloc: Global,
    name: &Name,
    value: i64,
    symbols: &mut Symbols,
) -> Result<(), Refused<LineFault>>
    ensures { MatchResult result (λ _. define name.now value symbols.old ≡ Ok symbols.new)
        (ByFault (λ e. define name.now value symbols.old ≡ Err e)) }
{
    if symbols.define(alloc, name.as_bytes(), value)? {
        return Ok(());
    }
    Err(Refused::By(LineFault::DuplicateLabel))
}

/// Gives a label the location before its line's statement.
fn define_label(
    alloc: Global,
    label: &Option<Label>,
    line: u32,
    at: u32,
    symbols: &mut Symbols,
) -> Result<(), Refused<LineFault>>
    requires { IfSome label.now IsLabel }
    ensures { MatchResult result (λ _. define_label label.now line at symbols.old ≡ Ok symbols.new)
        (ByFault (λ e. define_label label.now line at symbols.old ≡ Err e)) }
{
    match label {
        None => Ok(()),
        Some(Label::Name(name)) => {
            define(alloc, name, i64::from(at), symbols)?;
            Ok(())
        }
        Some(Label::Local(digit)) => {
            symbols.define_local(*digit, line, at)?;
            Ok(())
        }
    }
}

/// Gives the name of `.equ` its number.
fn define_equ(
    alloc: Global,
    statement: &Option<Statement>,
    symbols: &mut Symbols,
) -> Result<(), Refused<LineFault>>
    ensures { MatchResult result (λ _. define_equ statement.now symbols.old ≡ Ok symbols.new)
        (ByFault (λ e. define_equ statement.now symbols.old ≡ Err e)) }
{
    match statement {
        Some(Statement::Equ { name, value }) => match constant(value) {
            None => Err(Refused::By(LineFault::UnknownName)),
            Some(value) => {
                define(alloc, name, value, symbols)?;
                Ok(())
            }
        },
        _ => Ok(()),
    }
}

/// The location behind so many bytes.
pub(crate) fn moved(limit: u32, at: u32, size: u32) -> Result<u32, LineFault>
    ensures { result ≡ moved limit at size }
{
    match at.checked_add(size) {
        None => Err(LineFault::ImageTooLarge),
        Some(next) => {
            if limit < next {
                return Err(LineFault::ImageTooLarge);
            }
            Ok(next)
        }
    }
}

impl Laid {
    pub fn new(alloc: Global) -> Laid
        ensures { result ≡ start }
    {
        Laid {
            places: Vec::new(alloc),
            symbols: Symbols::new(alloc),
            at: 0,
        }
    }

    /// One more line, that was read: its names are defined, and the location after it found.
    #[tactic(auto, using(crate::proofs::SpacedPlaces::Spaced_push), unfolding(crate::specs::Layout::admitted, crate::specs::Layout::with_stmt))]
    fn add_read(
        &mut self,
        alloc: Global,
        limit: u32,
        number: u32,
        line: Rc<ReadLine>,
    ) -> Result<(), Refused<LineFault>>
        ensures { MatchResult result (λ _. with_stmt limit number line.value.text line.value.stmt self.old ≡ Ok self.new)
            (ByFault (λ e. with_stmt limit number line.value.text line.value.stmt self.old ≡ Err e)) }
    {
        let stmt = line.stmt();
        define_label(alloc, &stmt.label, number, self.at, &mut self.symbols)?;
        define_equ(alloc, &stmt.statement, &mut self.symbols)?;
        let size = size_of(stmt, self.at)?;
        let next = moved(limit, self.at, size)?;
        self.places
            .push(Placed { line, at: self.at })
            .map_err(AllocError::from)?;
        self.at = next;
        Ok(())
    }

    /// One more line, of text.
    #[tactic(auto, unfolding(crate::specs::Layout::with_line))]
    fn add_line(
        &mut self,
        alloc: Global,
        limit: u32,
        number: u32,
        text: &[u8],
    ) -> Result<(), Refused<LineFault>>
        ensures { MatchResult result (λ _. with_line limit number text.now self.old ≡ Ok self.new)
            (ByFault (λ e. with_line limit number text.now self.old ≡ Err e)) }
    {
        let line = ReadLine::new(alloc, text)?;
        self.add_read(alloc, limit, number, line)?;
        Ok(())
    }

    /// One more line, that a source has.
    #[tactic(auto, unfolding(crate::specs::Layout::with_line))]
    fn add_place(
        &mut self,
        alloc: Global,
        limit: u32,
        number: u32,
        place: &Placed,
    ) -> Result<(), Refused<LineFault>>
        ensures { MatchResult result (λ _. with_line limit number place.now.text self.old ≡ Ok self.new)
            (ByFault (λ e. with_line limit number place.now.text self.old ≡ Err e)) }
    {
        let _stmt = place.stmt();
        let line = place.line.clone()?;
        self.add_read(alloc, limit, number, line)?;
        Ok(())
    }

    /// The layout pass over lines that a source has, the first of which has this number.
    pub fn add_places(
        &mut self,
        alloc: Global,
        limit: u32,
        first: u32,
        places: &[Placed],
    ) -> Result<(), Refused<SourceFault>>
        requires { first + length places.now < 2 ^ 32 }
        ensures { MatchResult result (λ _. laid limit first (place_texts places.now) self.old ≡ Ok self.new)
            (ByFault (λ e. laid limit first (place_texts places.now) self.old ≡ Err e)) }
    {
        let mut number = first;
        for place in places {
            match self.add_place(alloc, limit, number, place) {
                Ok(()) => {}
                Err(fault) => return Err(in_line(number, fault)),
            }
            number += 1;
        }
        Ok(())
    }

    /// The layout pass over lines, the first of which has this number.
    pub fn add_lines(
        &mut self,
        alloc: Global,
        limit: u32,
        first: u32,
        lines: &[Vec<u8>],
    ) -> Result<(), Refused<SourceFault>>
        requires { first + length lines.now < 2 ^ 32 }
        ensures { MatchResult result (λ _. laid limit first (texts lines.now) self.old ≡ Ok self.new)
            (ByFault (λ e. laid limit first (texts lines.now) self.old ≡ Err e)) }
    {
        let mut number = first;
        for line in lines {
            match self.add_line(alloc, limit, number, line) {
                Ok(()) => {}
                Err(fault) => return Err(in_line(number, fault)),
            }
            number += 1;
        }
        Ok(())
    }

    /// The value pass: the bytes of each line. Those of `old` are kept where they are the same.
    #[tactic(auto, using(crate::proofs::RisingCode::code_rises, crate::proofs::RisingCode::code_length))]
    pub fn code(
        &self,
        alloc: Global,
        old: &Assembled,
        behind: Behind,
    ) -> Result<Vec<Rc<Vec<u8>>>, Refused<SourceFault>>
        requires many { length self.now.places < 2 ^ 32 - 1 }
        requires few { length old.now.layout.places ≤ 65536 }
        requires old { valued old.now.layout.symbols 1 old.now.layout.places [] ≡ Ok old.now.code }
        ensures sound { IfOk result (λ code. Sound (record { layout = self.now; code = code_bytes code.items })) }
        ensures value { MatchResult result (λ code. valued self.now.symbols 1 self.now.places [] ≡ Ok (code_bytes code.items))
            (ByFault (λ e. valued self.now.symbols 1 self.now.places [] ≡ Err e)) }
    {
        let code = code_of(alloc, &self.places, &self.symbols, old, behind)?;
        Ok(code)
    }

    /// The lines with their places, the names, and the location behind the lines.
    pub fn into_parts(self) -> (Vec<Placed>, Symbols, u32)
        ensures { record { places = result.0.items; symbols = result.1; at = result.2 } ≡ self }
    {
        (self.places, self.symbols, self.at)
    }
}
