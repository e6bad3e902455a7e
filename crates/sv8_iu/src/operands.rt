//! The second source of an instruction, and the sum of its sources (Appendix B.1 to B.29).

ghost use Rattle.std.specs.Prelude.{◌≡◌, ◌<◌};
ghost use Rattle.sv8_isa.specs.Registers.{OperandHasRegister};
ghost use Rattle.sv8_model.specs.Words.{word_of_number};
ghost use Rattle.sv8_iu.specs.Operands.{operand_value, sum_of_sources};

use sv8_isa::Operand;
use sv8_trap::Processor;

/// The word that stands for a number in two's complement.
#[inline(always)]
pub fn word_of(number: i32) -> u32
    ensures { result ≡ word_of_number number }
{
    if number < 0 {
        (i64::from(number) + 0x1_0000_0000) as u32
    } else {
        number as u32
    }
}

/// The value of a second source.
#[inline(always)]
pub fn operand_value<const NW: usize>(p: &Processor<NW>, operand: Operand) -> u32
    requires { OperandHasRegister operand }
    ensures { result ≡ operand_value NW p.now operand }
{
    match operand {
        Operand::Register(register) => p.registers().get(u32::from(register)),
        Operand::Immediate(number) => word_of(number),
    }
}

/// r[rs1] plus the second source.
#[inline(always)]
#[tactic(auto, unfolding(crate::specs::Operands::sum_of_sources))]
pub fn sum_of_sources<const NW: usize>(p: &Processor<NW>, rs1: u8, operand: Operand) -> u32
    requires rs1 { rs1 < 32 }
    requires operand { OperandHasRegister operand }
    ensures { result ≡ sum_of_sources NW p.now rs1 operand }
{
    let first = p.registers().get(u32::from(rs1));
    first.wrapping_add(operand_value(p, operand))
}
