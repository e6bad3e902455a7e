//! The operands of an instruction, as its fields hold them.

ghost use Rattle.std.specs.Prelude.{◌≡◌, ℤ, pos, negsuc, ◌≤ℤ◌, ◌-◌};
ghost use Rattle.sv8_asm.specs.Code.{least_immediate, most_immediate, immediate, second_source, upper_bits, below};

use crate::symbols::Symbols;
use crate::value::{value, within, word};
use sv8_isa::Operand;
use sv8_statements::{Imm, LineFault, Operation, RegOrImm, Upper};

/// The least number that may stand in the place of the second source.
fn least_immediate(operation: Operation) -> i128
    ensures value { result ≡ least_immediate operation }
    ensures low { negsuc 4095 ≤ℤ result }
{
    match operation {
        Operation::Shift(_) | Operation::Trap(_) => 0,
        _ => -4096,
    }
}

/// The greatest number that may stand there.
fn most_immediate(operation: Operation) -> i128
    ensures value { result ≡ most_immediate operation }
    ensures high { result ≤ℤ pos 4095 }
{
    match operation {
        Operation::Shift(_) => 31,
        Operation::Trap(_) => 127,
        _ => 4095,
    }
}

/// The number in the place of the second source.
fn immediate(operation: Operation, imm: &Imm, line: u32, names: &Symbols) -> Result<i32, LineFault>
    ensures { result ≡ immediate names.now line operation imm.now }
{
    match imm {
        Imm::Value(expr) => {
            let least = least_immediate(operation);
            let most = most_immediate(operation);
            match within(least, most, value(expr, line, names)) {
                Ok(number) => Ok(number as i32),
                Err(fault) => Err(fault),
            }
        }
        Imm::Low(expr) => match word(expr, line, names) {
            Ok(word) => Ok((word % 1024) as i32),
            Err(fault) => Err(fault),
        },
    }
}

/// The second source of an instruction.
pub(crate) fn second_source(
    operation: Operation,
    source: &RegOrImm,
    line: u32,
    names: &Symbols,
) -> Result<Operand, LineFault>
    ensures { result ≡ second_source names.now line operation source.now }
{
    match source {
        RegOrImm::Register(register) => Ok(Operand::Register(register.number())),
        RegOrImm::Immediate(imm) => match immediate(operation, imm, line, names) {
            Ok(number) => Ok(Operand::Immediate(number)),
            Err(fault) => Err(fault),
        },
    }
}

/// The number in SETHI's field imm22.
pub(crate) fn upper_bits(upper: &Upper, line: u32, names: &Symbols) -> Result<u32, LineFault>
    ensures { result ≡ upper_bits names.now line upper.now }
{
    match upper {
        Upper::Value(expr) => match within(0, 0x3F_FFFF, value(expr, line, names)) {
            Ok(number) => Ok(number as u32),
            Err(fault) => Err(fault),
        },
        Upper::High(expr) => match word(expr, line, names) {
            Ok(word) => Ok(word / 1024),
            Err(fault) => Err(fault),
        },
    }
}

/// A number below a bound.
pub(crate) fn below(bound: u32, number: u32) -> Result<u32, LineFault>
    ensures { result ≡ below bound number }
{
    if number < bound {
        Ok(number)
    } else {
        Err(LineFault::OutOfRange)
    }
}
