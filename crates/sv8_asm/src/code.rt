//! The bytes of a statement.

ghost use Rattle.std.specs.Prelude.{ℕ, List, Result, ◌≡◌, ℤ, pos, negsuc, ◌≤ℤ◌, ◌-◌, ◌^◌, ◌++◌, IsOk, IfOk, MatchResult, Ok, Err};
ghost use Rattle.std.specs.Int.{w16, w32, to_be_bytes};
ghost use Rattle.sv8_model.specs.Refused.{ByFault};
ghost use Rattle.sv8_statements.specs.declared.fault.LineFault.{LineFault};
ghost use Rattle.sv8_asm.specs.Size.{size};
ghost use Rattle.sv8_asm.specs.Code.{on_ok, least_datum, most_datum, datum_bytes, datum, data_bytes, instruction_bytes, code, before, bytes, instructions_of};
ghost use Rattle.sv8_asm.specs.Coded.{listed, listed_any};
ghost use Rattle.sv8_asm.specs.Gathering.{carried};

use crate::instruction::{Coded, instruction_of, set_instructions};
use crate::symbols::Symbols;
use crate::value::{value, within, word_of_number};
use byteorder::{BigEndian, ByteOrder};
use std::alloc::{AllocError, Global};
use sv8_isa::{Instr, encode};
use sv8_model::Refused;
use sv8_statements::{Expr, LineFault, Statement, Stmt, Width};

/// The least number that a value in memory may be.
fn least_datum(width: Width) -> i128
    ensures value { result ≡ least_datum width }
    ensures low { negsuc (2 ^ 31) ≤ℤ result }
{
    match width {
        Width::Byte => -0x80,
        Width::Half => -0x8000,
        Width::Word => -0x8000_0000,
    }
}

/// The greatest number that it may be.
fn most_datum(width: Width) -> i128
    ensures value { result ≡ most_datum width }
    ensures high { result ≤ℤ pos (2 ^ 32) }
{
    match width {
        Width::Byte => 0xFF,
        Width::Half => 0xFFFF,
        Width::Word => 0xFFFF_FFFF,
    }
}

/// The bytes of a halfword, the most significant first.
fn half_bytes(half: u16) -> [u8; 2]
    ensures { result ≡ to_be_bytes w16 half }
{
    let mut bytes = [0u8; 2];
    BigEndian::write_u16(&mut bytes, half);
    bytes
}

/// The bytes of a word, the most significant first.
fn word_bytes(word: u32) -> [u8; 4]
    ensures { result ≡ to_be_bytes w32 word }
{
    let mut bytes = [0u8; 4];
    BigEndian::write_u32(&mut bytes, word);
    bytes
}

/// The bytes of a value in memory, in the place of which a number was found, behind those so far.
fn put_datum(bytes: &mut Vec<u8>, width: Width, number: i128) -> Result<(), AllocError>
    requires low { negsuc (2 ^ 31) ≤ℤ number }
    requires high { number ≤ℤ pos (2 ^ 32) }
    ensures { IfOk result (λ _. bytes.new.items ≡ bytes.old.items ++ datum_bytes width number) }
{
    let word = word_of_number(number);
    match width {
        Width::Byte => bytes.push((word % 0x100) as u8)?,
        Width::Half => bytes.extend_from_slice(&half_bytes((word % 0x1_0000) as u16))?,
        Width::Word => bytes.extend_from_slice(&word_bytes(word))?,
    }
    Ok(())
}

/// Puts the bytes of one more value behind those so far, or its fault beside the least one so far.
#[tactic(auto, using(crate::proofs::Gathering::carried_bytes, crate::proofs::Gathering::carried_fault))]
fn gather(
    bytes: &mut Vec<u8>,
    fault: Option<LineFault>,
    width: Width,
    number: Result<i128, LineFault>,
) -> Result<Option<LineFault>, AllocError>
    requires low { IfOk number (λ v. negsuc (2 ^ 31) ≤ℤ v) }
    requires high { IfOk number (λ v. v ≤ℤ pos (2 ^ 32)) }
    ensures { IfOk result (λ f. (rest : Result (List ℕ) LineFault) → carried fault bytes.old.items (before (on_ok number (datum_bytes width)) rest) ≡ carried f bytes.new.items rest) }
{
    match number {
        Ok(number) => {
            put_datum(bytes, width, number)?;
            Ok(fault)
        }
        Err(found) => Ok(Some(LineFault::least(fault, found))),
    }
}

/// The number of a value in memory.
fn datum_number(width: Width, expr: &Expr, line: u32, names: &Symbols) -> Result<i128, LineFault>
    ensures value { on_ok result (datum_bytes width) ≡ datum names.now line width expr.now }
    ensures low { IfOk result (λ v. negsuc (2 ^ 31) ≤ℤ v) }
    ensures high { IfOk result (λ v. v ≤ℤ pos (2 ^ 32)) }
{
    let least = least_datum(width);
    let most = most_datum(width);
    within(least, most, value(expr, line, names))
}

/// The bytes of these values. Each of them is looked at, whatever fault one before it has.
#[tactic(auto, using(crate::proofs::Gathering::carried_start, crate::proofs::Gathering::carried_end), unfolding(crate::specs::Code::data_bytes))]
fn data_bytes(
    alloc: Global,
    width: Width,
    values: &[Expr],
    line: u32,
    names: &Symbols,
) -> Result<Vec<u8>, Refused<LineFault>>
    ensures { MatchResult result (λ v. data_bytes names.now line width values.now ≡ Ok v.items) (ByFault (λ e. data_bytes names.now line width values.now ≡ Err e)) }
{
    let mut bytes = Vec::new(alloc);
    let mut fault = None;
    let mut rest = values;
    while let [first, after @ ..] = rest {
        fault = gather(
            &mut bytes,
            fault,
            width,
            datum_number(width, first, line, names),
        )?;
        rest = after;
    }
    match fault {
        Some(fault) => Err(Refused::By(fault)),
        None => Ok(bytes),
    }
}

/// The bytes of one word.
fn one_word(alloc: Global, word: u32) -> Result<Vec<u8>, AllocError>
    ensures { IfOk result (λ v. v.items ≡ to_be_bytes w32 word) }
{
    let bytes = Vec::from_slice(alloc, &word_bytes(word))?;
    Ok(bytes)
}

/// The bytes of two words.
fn two_words(alloc: Global, first: u32, second: u32) -> Result<Vec<u8>, AllocError>
    ensures { IfOk result (λ v. v.items ≡ to_be_bytes w32 first ++ to_be_bytes w32 second) }
{
    let mut bytes = one_word(alloc, first)?;
    bytes.extend_from_slice(&word_bytes(second))?;
    Ok(bytes)
}

/// The bytes of one instruction or two.
fn instruction_bytes(alloc: Global, coded: Coded) -> Result<Vec<u8>, Refused<LineFault>>
    ensures { MatchResult result (λ v. instruction_bytes (listed coded) ≡ Ok v.items) (ByFault (λ e. instruction_bytes (listed coded) ≡ Err e)) }
{
    match coded {
        Coded::One(instr) => match encode(&instr) {
            None => Err(Refused::By(LineFault::OutOfRange)),
            Some(word) => {
                let bytes = one_word(alloc, word)?;
                Ok(bytes)
            }
        },
        Coded::Two(first, second) => match (encode(&first), encode(&second)) {
            (Some(first), Some(second)) => {
                let bytes = two_words(alloc, first, second)?;
                Ok(bytes)
            }
            _ => Err(Refused::By(LineFault::OutOfRange)),
        },
    }
}

/// The instructions that a statement stands for, or none where it is none.
fn instructions(
    statement: &Statement,
    line: u32,
    at: u32,
    names: &Symbols,
) -> Result<Option<Coded>, LineFault>
    ensures { on_ok result listed_any ≡ instructions_of names.now line at statement.now }
{
    match statement {
        Statement::Instruction(instruction) => match instruction_of(instruction, line, at, names) {
            Ok(instr) => Ok(Some(Coded::One(instr))),
            Err(fault) => Err(fault),
        },
        Statement::Set { value, rd } => match set_instructions(value, *rd, line, names) {
            Ok(coded) => Ok(Some(coded)),
            Err(fault) => Err(fault),
        },
        Statement::Data { .. }
        | Statement::Ascii(_)
        | Statement::Motion { .. }
        | Statement::Equ { .. } => Ok(None),
    }
}

/// The bytes of what is neither data nor a text.
fn code(
    alloc: Global,
    statement: &Statement,
    line: u32,
    at: u32,
    names: &Symbols,
) -> Result<Vec<u8>, Refused<LineFault>>
    ensures { MatchResult result (λ v. code (instructions_of names.now line at statement.now) ≡ Ok v.items) (ByFault (λ e. code (instructions_of names.now line at statement.now) ≡ Err e)) }
{
    match instructions(statement, line, at, names) {
        Ok(Some(coded)) => instruction_bytes(alloc, coded),
        Ok(None) => Ok(Vec::new(alloc)),
        Err(fault) => Err(Refused::By(fault)),
    }
}

/// The bytes that the statement of a line places from the location `at` on; none where the line has no statement.
///
/// An instruction is one word, the most significant byte first, and `set` is one or two; encodings are those of Appendix B. The names
/// and local labels have to be all that the source defines, and `line` is the number of the line, from 1 on, by which local labels
/// are found.
///
/// # Errors
///
/// `UnknownName` for a name that has no value, or a reference to a local label that no line has; `OutOfRange` for a value that its
/// field does not hold; `BadAlignment` for a branch or call by no multiple of 4 bytes. Of several faults the least. `OutOfMemory`
/// for want of memory, whatever the statement.
#[tactic(auto, unfolding(crate::specs::Code::bytes))]
pub fn assemble(
    alloc: Global,
    stmt: &Stmt,
    line: u32,
    at: u32,
    names: &Symbols,
) -> Result<Vec<u8>, Refused<LineFault>>
    requires { IsOk (size stmt.now at) }
    ensures { MatchResult result (λ v. bytes stmt.now line at names.now ≡ Ok v.items) (ByFault (λ e. bytes stmt.now line at names.now ≡ Err e)) }
{
    match &stmt.statement {
        None => Ok(Vec::new(alloc)),
        Some(Statement::Data { width, values }) => {
            data_bytes(alloc, *width, values.as_slice(), line, names)
        }
        Some(Statement::Ascii(text)) => {
            let bytes = Vec::from_slice(alloc, text.as_bytes())?;
            Ok(bytes)
        }
        Some(statement) => code(alloc, statement, line, at, names),
    }
}
