//! What an operand is taken as.

ghost use Rattle.std.specs.Prelude.{◌≡◌, option_map};
ghost use Rattle.sv8_statements.specs.Operand.{expr_view, imm_view, source_view, address_view, operand_view};
ghost use Rattle.sv8_forms.specs.Taking.{register_in, source_in, imm_in, expr_in, number_of, number_in, is_short, count_in, fields_of, place_in, is_bracketed, bracketed_in, starts_with_register, alternate_in, is_state, state_in, is_trap, trap_in, name_of, name_in, is_signed, signed_in};

use sv8_isa::StateRegister;
use sv8_statements::{Address, ExprRef, ImmRef, Operand, RegOrImmRef, Register, is_reference};

#[tactic(auto, unfolding(crate::specs::Taking::register_in))]
pub fn register_in(operand: &Operand<'_>) -> Option<Register>
    ensures { result ≡ register_in (operand_view operand.now) }
{
    match operand {
        Operand::Plain(Address::One(RegOrImmRef::Register(a))) => Some(*a),
        _ => None,
    }
}

#[tactic(auto, unfolding(crate::specs::Taking::source_in))]
pub fn source_in<'a>(operand: &Operand<'a>) -> Option<RegOrImmRef<'a>>
    ensures { option_map source_view result ≡ source_in (operand_view operand.now) }
{
    match operand {
        Operand::Plain(Address::One(c)) => Some(*c),
        _ => None,
    }
}

#[tactic(auto, unfolding(crate::specs::Taking::imm_in))]
pub fn imm_in<'a>(operand: &Operand<'a>) -> Option<ImmRef<'a>>
    ensures { option_map imm_view result ≡ imm_in (operand_view operand.now) }
{
    match operand {
        Operand::Plain(Address::One(RegOrImmRef::Immediate(i))) => Some(*i),
        _ => None,
    }
}

#[tactic(auto, unfolding(crate::specs::Taking::expr_in))]
pub fn expr_in<'a>(operand: &Operand<'a>) -> Option<ExprRef<'a>>
    ensures { option_map expr_view result ≡ expr_in (operand_view operand.now) }
{
    match operand {
        Operand::Plain(Address::One(RegOrImmRef::Immediate(ImmRef::Value(e)))) => Some(*e),
        _ => None,
    }
}

#[tactic(auto, unfolding(crate::specs::Taking::number_of))]
fn number_of(value: &ExprRef<'_>) -> Option<u32>
    ensures { result ≡ number_of (expr_view value.now) }
{
    match value {
        ExprRef::Number(n) => Some(*n),
        _ => None,
    }
}

/// A number without a sign.
#[tactic(auto, unfolding(crate::specs::Taking::number_in))]
pub fn number_in(operand: &Operand<'_>) -> Option<u32>
    ensures { result ≡ number_in (operand_view operand.now) }
{
    number_of(&expr_in(operand)?)
}

#[tactic(auto, unfolding(crate::specs::Taking::is_short))]
fn is_short(source: &RegOrImmRef<'_>) -> bool
    ensures { result ≡ is_short (source_view source.now) }
{
    !matches!(source, RegOrImmRef::Immediate(ImmRef::Low(_)))
}

/// A register or an expression.
#[tactic(auto, unfolding(crate::specs::Taking::count_in))]
pub fn count_in<'a>(operand: &Operand<'a>) -> Option<RegOrImmRef<'a>>
    ensures { option_map source_view result ≡ count_in (operand_view operand.now) }
{
    let source = source_in(operand)?;
    if is_short(&source) {
        Some(source)
    } else {
        None
    }
}

/// rs1 and the second source of an address.
#[tactic(auto, unfolding(crate::specs::Taking::fields_of))]
fn fields_of<'a>(address: &Address<'a>) -> (Register, RegOrImmRef<'a>)
    ensures rs1 { result.0 ≡ (fields_of (address_view address.now)).0 }
    ensures source { source_view result.1 ≡ (fields_of (address_view address.now)).1 }
{
    match address {
        Address::One(RegOrImmRef::Register(a)) => (*a, RegOrImmRef::Register(Register::G0)),
        Address::One(RegOrImmRef::Immediate(i)) => (Register::G0, RegOrImmRef::Immediate(*i)),
        Address::Sum(a, c) => (*a, *c),
        Address::Less(a, n) => {
            let value = ImmRef::Value(ExprRef::Minus(*n));
            (*a, RegOrImmRef::Immediate(value))
        }
        Address::After(i, a) => (*a, RegOrImmRef::Immediate(*i)),
    }
}

/// rs1 and the second source of an address without brackets.
#[tactic(auto, unfolding(crate::specs::Taking::place_in))]
pub fn place_in<'a>(operand: &Operand<'a>) -> Option<(Register, RegOrImmRef<'a>)>
    ensures { option_map (λ x. (x.0, source_view x.1)) result ≡ place_in (operand_view operand.now) }
{
    match operand {
        Operand::Plain(a) => Some(fields_of(a)),
        _ => None,
    }
}

#[tactic(auto, unfolding(crate::specs::Taking::is_bracketed))]
pub fn is_bracketed(operand: &Operand<'_>) -> bool
    ensures { result ≡ is_bracketed (operand_view operand.now) }
{
    matches!(operand, Operand::Bracketed(_))
}

/// rs1 and the second source of an address in brackets.
#[tactic(auto, unfolding(crate::specs::Taking::bracketed_in))]
pub fn bracketed_in<'a>(operand: &Operand<'a>) -> Option<(Register, RegOrImmRef<'a>)>
    ensures { option_map (λ x. (x.0, source_view x.1)) result ≡ bracketed_in (operand_view operand.now) }
{
    match operand {
        Operand::Bracketed(a) => Some(fields_of(a)),
        _ => None,
    }
}

#[tactic(auto, unfolding(crate::specs::Taking::starts_with_register))]
pub fn starts_with_register(operand: &Operand<'_>) -> bool
    ensures { result ≡ starts_with_register (operand_view operand.now) }
{
    matches!(
        operand,
        Operand::Plain(
            Address::One(RegOrImmRef::Register(_)) | Address::Sum(_, _) | Address::Less(_, _)
        )
    )
}

/// rs1, rs2 and asi.
#[tactic(auto, unfolding(crate::specs::Taking::alternate_in))]
pub fn alternate_in(operand: &Operand<'_>) -> Option<(Register, Register, u32)>
    ensures { result ≡ alternate_in (operand_view operand.now) }
{
    match operand {
        Operand::Alternate(Address::One(RegOrImmRef::Register(a)), n) => {
            Some((*a, Register::G0, *n))
        }
        Operand::Alternate(Address::Sum(a, RegOrImmRef::Register(b)), n) => Some((*a, *b, *n)),
        _ => None,
    }
}

#[tactic(auto, unfolding(crate::specs::Taking::is_state))]
pub fn is_state(operand: &Operand<'_>) -> bool
    ensures { result ≡ is_state (operand_view operand.now) }
{
    matches!(operand, Operand::State(_))
}

#[tactic(auto, unfolding(crate::specs::Taking::state_in))]
pub fn state_in(operand: &Operand<'_>) -> Option<StateRegister>
    ensures { result ≡ state_in (operand_view operand.now) }
{
    match operand {
        Operand::State(s) => Some(*s),
        _ => None,
    }
}

#[tactic(auto, unfolding(crate::specs::Taking::is_trap))]
fn is_trap(address: &Address<'_>) -> bool
    ensures { result ≡ is_trap (address_view address.now) }
{
    match address {
        Address::One(c) | Address::Sum(_, c) => is_short(c),
        _ => false,
    }
}

/// rs1 and the second source of a trap's number.
#[tactic(auto, unfolding(crate::specs::Taking::trap_in))]
pub fn trap_in<'a>(operand: &Operand<'a>) -> Option<(Register, RegOrImmRef<'a>)>
    ensures { option_map (λ x. (x.0, source_view x.1)) result ≡ trap_in (operand_view operand.now) }
{
    match operand {
        Operand::Plain(a) => { if is_trap(a) { Some(fields_of(a)) } else { None } }
        _ => None,
    }
}

#[tactic(auto, unfolding(crate::specs::Taking::name_of))]
fn name_of<'a>(value: &ExprRef<'a>) -> Option<&'a [u8]>
    ensures { option_map (λ w. w.now) result ≡ name_of (expr_view value.now) }
{
    match value {
        ExprRef::Name(w) => { if is_reference(w) { None } else { Some(*w) } }
        _ => None,
    }
}

/// A name alone, which is no reference to a local label.
#[tactic(auto, unfolding(crate::specs::Taking::name_in))]
pub fn name_in<'a>(operand: &Operand<'a>) -> Option<&'a [u8]>
    ensures { option_map (λ w. w.now) result ≡ name_in (operand_view operand.now) }
{
    name_of(&expr_in(operand)?)
}

#[tactic(auto, unfolding(crate::specs::Taking::is_signed))]
fn is_signed(value: &ExprRef<'_>) -> bool
    ensures { result ≡ is_signed (expr_view value.now) }
{
    matches!(value, ExprRef::Number(_) | ExprRef::Minus(_))
}

/// A number, perhaps with a sign.
#[tactic(auto, unfolding(crate::specs::Taking::signed_in))]
pub fn signed_in<'a>(operand: &Operand<'a>) -> Option<ExprRef<'a>>
    ensures { option_map expr_view result ≡ signed_in (operand_view operand.now) }
{
    let value = expr_in(operand)?;
    if is_signed(&value) { Some(value) } else { None }
}
