//! The names of a source, in the order of their values.

ghost use Rattle.std.specs.Prelude.{◌≡◌, ◌++◌, map, option_map, IfOk, OnOk};
ghost use Rattle.std.specs.Option.{option_to_list};
ghost use Rattle.sv8_model.specs.Words.{word_of_number};
ghost use Rattle.sv8_source.specs.Names.{label_name, equ_name, line_names, defined_names, in_order, HasNoTies};
ghost use Rattle.sv8_source.specs.View.{named_of};

use crate::laid::Placed;
use std::alloc::{AllocError, Global};
use sv8_asm::constant;
use sv8_statements::{Label, Statement};

/// What defines a name.
#[derive(Drop, Clone, Copy)]
pub enum NameKind {
    /// A line that has it as its label.
    Label,
    /// The directive `.equ`.
    Equ,
}

/// A name that a source defines.
#[derive(Drop, Clone, Copy)]
pub struct DefinedName<'a> {
    /// The location before the statement of a label's line, or the number of `.equ` modulo 2^32.
    pub value: u32,
    /// What defines it.
    pub kind: NameKind,
    /// The name's bytes, as the line spells them.
    pub text: &'a [u8],
}

/// The name that the label of a line at a location defines.
fn label_name(label: &Option<Label>, at: u32) -> Option<DefinedName<'_>>
    ensures { option_map named_of result ≡ label_name label.now at }
{
    match label {
        Some(Label::Name(name)) => Some(DefinedName {
            value: at,
            kind: NameKind::Label,
            text: name.as_bytes(),
        }),
        Some(Label::Local(_)) => None,
        None => None,
    }
}

/// The word that stands for a number in two's complement.
fn word_of_number(number: i64) -> u32
    ensures { result ≡ word_of_number number }
{
    number.rem_euclid(0x1_0000_0000) as u32
}

/// The name that `.equ` defines.
fn equ_name(statement: &Option<Statement>) -> Option<DefinedName<'_>>
    ensures { option_map named_of result ≡ equ_name statement.now }
{
    match statement {
        Some(Statement::Equ { name, value }) => match constant(value) {
            None => None,
            Some(value) => Some(DefinedName {
                value: word_of_number(value),
                kind: NameKind::Equ,
                text: name.as_bytes(),
            }),
        },
        _ => None,
    }
}

/// Puts a name, if there is one, behind others.
fn push<'a>(
    names: &mut Vec<DefinedName<'a>>,
    name: Option<DefinedName<'a>>,
) -> Result<(), AllocError>
    ensures { OnOk result (map named_of names.new.items ≡ map named_of names.old.items ++ option_to_list (option_map named_of name.entry)) }
{
    match name {
        None => Ok(()),
        Some(name) => {
            names.push(name)?;
            Ok(())
        }
    }
}

/// Puts the names that a line defines behind others.
fn push_line<'a>(names: &mut Vec<DefinedName<'a>>, place: &'a Placed) -> Result<(), AllocError>
    ensures { OnOk result (map named_of names.new.items ≡ map named_of names.old.items ++ line_names place.now) }
{
    let stmt = place.stmt();
    push(names, label_name(&stmt.label, place.at()))?;
    push(names, equ_name(&stmt.statement))
}

/// The names that lines define, in the order of the lines.
fn names_by_line<'a>(
    alloc: Global,
    places: &'a [Placed],
) -> Result<Vec<DefinedName<'a>>, AllocError>
    ensures { IfOk result (λ v. map named_of v.items ≡ defined_names places.now) }
{
    let mut names = Vec::new(alloc);
    for place in places {
        push_line(&mut names, place)?;
    }
    Ok(names)
}

/// Puts names in the order of their values, and those of one value in that of their bytes.
fn sort(names: &mut Vec<DefinedName<'_>>)
    requires { HasNoTies (map named_of names.old.items) }
    ensures { map named_of names.new.items ≡ in_order (map named_of names.old.items) }
{
    names.sort_unstable_by_key(|name| (name.value, name.text));
}

/// The names that lines define, in the order of their values.
pub fn names_in_order<'a>(
    alloc: Global,
    places: &'a [Placed],
) -> Result<Vec<DefinedName<'a>>, AllocError>
    requires { HasNoTies (defined_names places.now) }
    ensures { IfOk result (λ v. map named_of v.items ≡ in_order (defined_names places.now)) }
{
    let mut names = names_by_line(alloc, places)?;
    sort(&mut names);
    Ok(names)
}
