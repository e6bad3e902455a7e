//! Instructions that make no access, carried out whole.
//!
//! Each group is a function of its own, so that a word comes in and no decoded instruction goes from one function to another, and
//! the frequent instructions have arms in it. What has no arm goes the way of every instruction, by `raised_by` and `complete`.

ghost use Rattle.std.specs.Prelude.{◌≡◌, ◌≢◌, [], None, true, OnOk, OnErr};
ghost use Rattle.sv8_model.specs.Does.{noting};
ghost use Rattle.sv8_isa.specs.Table.{group_of, meaning};
ghost use Rattle.sv8_trap.specs.Table.{taken};
ghost use Rattle.sv8_iu.specs.Instruction.{raised, IsUnaided};
ghost use Rattle.sv8_iu.specs.Seen.{taken_seen};

use crate::arithmetic::{arithmetic, arithmetic_in_place, set_upper, shift_by_operation};
use crate::control::{branch, call, jump, jump_trap};
use crate::instruction::{complete, raised_by, take_trap};
use crate::seen::show_trap;
use crate::windows::{restore, restore_trap, save, save_trap};
use std::alloc::AllocError;
use sv8_isa::{
    ArithOp, Group, Instr, decode, decode_arithmetic, decode_call, decode_control, decode_format_2,
    decode_shift, group,
};
use sv8_model::Touches;
use sv8_trap::Processor;

/// Carries out any such word, by the way of every instruction: takes the trap that it raises, or completes it.
#[inline(never)]
#[tactic(auto, using(crate::proofs::Asking::asks_for_nothing))]
fn carry_out<const NW: usize, T: Touches>(
    p: &mut Processor<NW>,
    word: u32,
    notes: &mut T,
) -> Result<(), AllocError>
    requires { group_of word ≢ Group.Memory }
    ensures made { OnOk result (IsUnaided NW p.old (meaning word) p.new) }
    ensures noted { OnOk result (T.noted notes.new ≡ noting T.NOTING (T.noted notes.old) [] (taken_seen (taken (raised NW p.old (meaning word))))) }
    ensures observed { OnErr result (T.OBSERVES ≡ true) }
    ensures trapped { OnErr result (taken (raised NW p.old (meaning word)) ≢ None) }
{
    let instr = decode(word);
    match raised_by(p, instr) {
        Some(trap) => {
            show_trap(trap, notes)?;
            take_trap(p, instr, trap);
        }
        None => complete(p, instr, 0),
    }
    Ok(())
}

/// Carries out Bicc, SETHI and the rest of op 0 (Appendices B.21, B.9, B.22, B.23 and B.31).
#[inline(never)]
fn carry_out_format_2<const NW: usize, T: Touches>(
    p: &mut Processor<NW>,
    word: u32,
    notes: &mut T,
) -> Result<(), AllocError>
    requires { group_of word ≡ Group.Format2 }
    ensures made { OnOk result (IsUnaided NW p.old (meaning word) p.new) }
    ensures noted { OnOk result (T.noted notes.new ≡ noting T.NOTING (T.noted notes.old) [] (taken_seen (taken (raised NW p.old (meaning word))))) }
    ensures observed { OnErr result (T.OBSERVES ≡ true) }
    ensures trapped { OnErr result (taken (raised NW p.old (meaning word)) ≢ None) }
{
    match decode_format_2(word) {
        Instr::Bicc {
            cond,
            annul,
            disp22,
        } => branch(p, cond, annul, disp22),
        Instr::Sethi { imm22, rd } => set_upper(p, rd, imm22),
        _ => return carry_out(p, word, notes),
    }
    Ok(())
}

/// Carries out CALL (Appendix B.24).
#[inline(never)]
fn carry_out_call<const NW: usize, T: Touches>(
    p: &mut Processor<NW>,
    word: u32,
    notes: &mut T,
) -> Result<(), AllocError>
    requires { group_of word ≡ Group.Call }
    ensures made { OnOk result (IsUnaided NW p.old (meaning word) p.new) }
    ensures noted { OnOk result (T.noted notes.new ≡ noting T.NOTING (T.noted notes.old) [] (taken_seen (taken (raised NW p.old (meaning word))))) }
    ensures observed { OnErr result (T.OBSERVES ≡ true) }
    ensures trapped { OnErr result (taken (raised NW p.old (meaning word)) ≢ None) }
{
    match decode_call(word) {
        Instr::Call { disp30 } => call(p, disp30),
        _ => return carry_out(p, word, notes),
    }
    Ok(())
}

/// Carries out arithmetic and logic (Appendices B.11, B.13, B.18 and B.19). There is an arm for each operation that cannot trap, so
/// the built program asks once which one it is, and has code for each.
#[inline(never)]
fn carry_out_arithmetic<const NW: usize, T: Touches>(
    p: &mut Processor<NW>,
    word: u32,
    notes: &mut T,
) -> Result<(), AllocError>
    requires { group_of word ≡ Group.Arithmetic }
    ensures made { OnOk result (IsUnaided NW p.old (meaning word) p.new) }
    ensures noted { OnOk result (T.noted notes.new ≡ noting T.NOTING (T.noted notes.old) [] (taken_seen (taken (raised NW p.old (meaning word))))) }
    ensures observed { OnErr result (T.OBSERVES ≡ true) }
    ensures trapped { OnErr result (taken (raised NW p.old (meaning word)) ≢ None) }
{
    match decode_arithmetic(word) {
        Instr::Arith {
            op,
            cc,
            rd,
            rs1,
            operand,
        } => match op {
            ArithOp::Add => arithmetic_in_place(p, ArithOp::Add, cc, rd, rs1, operand),
            ArithOp::Addx => arithmetic_in_place(p, ArithOp::Addx, cc, rd, rs1, operand),
            ArithOp::Sub => arithmetic_in_place(p, ArithOp::Sub, cc, rd, rs1, operand),
            ArithOp::Subx => arithmetic_in_place(p, ArithOp::Subx, cc, rd, rs1, operand),
            ArithOp::And => arithmetic_in_place(p, ArithOp::And, cc, rd, rs1, operand),
            ArithOp::Andn => arithmetic_in_place(p, ArithOp::Andn, cc, rd, rs1, operand),
            ArithOp::Or => arithmetic_in_place(p, ArithOp::Or, cc, rd, rs1, operand),
            ArithOp::Orn => arithmetic_in_place(p, ArithOp::Orn, cc, rd, rs1, operand),
            ArithOp::Xor => arithmetic_in_place(p, ArithOp::Xor, cc, rd, rs1, operand),
            ArithOp::Xnor => arithmetic_in_place(p, ArithOp::Xnor, cc, rd, rs1, operand),
            ArithOp::Umul | ArithOp::Smul => arithmetic(p, op, cc, rd, rs1, operand),
            ArithOp::Udiv | ArithOp::Sdiv => return carry_out(p, word, notes),
        },
        _ => return carry_out(p, word, notes),
    }
    Ok(())
}

/// Carries out shifts, tagged arithmetic and MULScc (Appendices B.12, B.14, B.16 and B.17).
#[inline(never)]
fn carry_out_shift<const NW: usize, T: Touches>(
    p: &mut Processor<NW>,
    word: u32,
    notes: &mut T,
) -> Result<(), AllocError>
    requires { group_of word ≡ Group.Shift }
    ensures made { OnOk result (IsUnaided NW p.old (meaning word) p.new) }
    ensures noted { OnOk result (T.noted notes.new ≡ noting T.NOTING (T.noted notes.old) [] (taken_seen (taken (raised NW p.old (meaning word))))) }
    ensures observed { OnErr result (T.OBSERVES ≡ true) }
    ensures trapped { OnErr result (taken (raised NW p.old (meaning word)) ≢ None) }
{
    match decode_shift(word) {
        Instr::Shift { op, rd, rs1, count } => shift_by_operation(p, op, rd, rs1, count),
        _ => return carry_out(p, word, notes),
    }
    Ok(())
}

/// Carries out JMPL, SAVE, RESTORE and the rest of the group of control (Appendices B.20 and B.25 to B.34).
#[inline(never)]
fn carry_out_control<const NW: usize, T: Touches>(
    p: &mut Processor<NW>,
    word: u32,
    notes: &mut T,
) -> Result<(), AllocError>
    requires { group_of word ≡ Group.Control }
    ensures made { OnOk result (IsUnaided NW p.old (meaning word) p.new) }
    ensures noted { OnOk result (T.noted notes.new ≡ noting T.NOTING (T.noted notes.old) [] (taken_seen (taken (raised NW p.old (meaning word))))) }
    ensures observed { OnErr result (T.OBSERVES ≡ true) }
    ensures trapped { OnErr result (taken (raised NW p.old (meaning word)) ≢ None) }
{
    match decode_control(word) {
        Instr::Jmpl { rd, rs1, operand } if jump_trap(p, rs1, operand).is_none() => jump(
            p, rd, rs1, operand,
        ),
        Instr::Save { rd, rs1, operand } if save_trap(p).is_none() => save(p, rd, rs1, operand),
        Instr::Restore { rd, rs1, operand } if restore_trap(p).is_none() => restore(
            p, rd, rs1, operand,
        ),
        _ => return carry_out(p, word, notes),
    }
    Ok(())
}

/// Carries out a word of an instruction that makes no access: takes the trap that it raises, which an observer sees, or completes
/// it.
///
/// # Errors
///
/// `AllocError` where the instruction raises a trap of which an observer is told, and memory for that note cannot be had. Nothing is
/// then said of the processor.
#[inline(always)]
pub fn carry_out_unaided<const NW: usize, T: Touches>(
    p: &mut Processor<NW>,
    word: u32,
    notes: &mut T,
) -> Result<(), AllocError>
    requires { group_of word ≢ Group.Memory }
    ensures made { OnOk result (IsUnaided NW p.old (meaning word) p.new) }
    ensures noted { OnOk result (T.noted notes.new ≡ noting T.NOTING (T.noted notes.old) [] (taken_seen (taken (raised NW p.old (meaning word))))) }
    ensures observed { OnErr result (T.OBSERVES ≡ true) }
    ensures trapped { OnErr result (taken (raised NW p.old (meaning word)) ≢ None) }
{
    match group(word) {
        Group::Format2 => carry_out_format_2(p, word, notes),
        Group::Call => carry_out_call(p, word, notes),
        Group::Arithmetic => carry_out_arithmetic(p, word, notes),
        Group::Shift => carry_out_shift(p, word, notes),
        Group::Control => carry_out_control(p, word, notes),
        Group::Memory => Ok(()),
    }
}
