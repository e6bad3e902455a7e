//! Which signs recorded steps have.

ghost use Rattle.std.specs.Prelude.{◌≡◌, ◌+◌, ◌==◌, ◌&&◌};
ghost use Rattle.std.specs.List.{list_any};
ghost use Rattle.sv8_notes.specs.Flags.{IsFlagged};
ghost use Rattle.sv8_evidence.specs.Signs.{has_sign, has_sign_between, is_note_between, is_note_of, may_be_of};

use sv8_notes::flag_step;
use sv8_trace::{Signs, TrapNote};

/// What the states before and after a step may show.
#[derive(Clone, Copy)]
pub enum Sign {
    /// Addresses are translated in the state before the step (Appendix H).
    Translation,
    /// The machine ran before the step, which led to error mode, or to the address in TBR, as each trap does (section 7.2).
    Trap,
    /// The same, and where it led to the address in TBR, this type of trap (tt) stands there.
    TrapType(u8),
}

/// Whether a trap may have been of a type.
fn may_be_of(trap: &TrapNote, trap_type: u8) -> bool
    ensures { result ≡ may_be_of trap_type trap.now.trap_type }
{
    match trap.trap_type {
        None => true,
        Some(there) => there == trap_type,
    }
}

/// Whether a trap has a sign.
fn has(trap: &TrapNote, sign: Sign) -> bool
    ensures { result ≡ is_note_of sign trap.now }
{
    match sign {
        Sign::Translation => false,
        Sign::Trap => true,
        Sign::TrapType(trap_type) => may_be_of(trap, trap_type),
    }
}

/// Whether a trap has a sign, and is that of a step from one offset on and below another.
fn has_between(trap: &TrapNote, sign: Sign, from: u32, end: u32) -> bool
    ensures { result ≡ is_note_between sign from end trap.now }
{
    (from <= trap.offset && trap.offset < end) && has(trap, sign)
}

/// Sets the flag of the step of a trap, if the trap has a sign. Flag number i is that of the step with the offset `from + i`.
fn flag_trap(trap: &TrapNote, sign: Sign, from: u32, flags: &mut [bool])
    ensures { IsFlagged (λ i. trap.now.offset == from + i && is_note_of sign trap.now) flags.old flags.new }
{
    if has(trap, sign) {
        flag_step(trap.offset, from, flags);
    }
}

/// Whether one of some traps has a sign, and is that of a step from one offset on and below another.
fn any_has_between(traps: &[TrapNote], sign: Sign, from: u32, end: u32) -> bool
    ensures { result ≡ list_any (is_note_between sign from end) traps.now }
{
    traps.iter().any(|trap| has_between(trap, sign, from, end))
}

/// Sets the flags of the steps of those traps that have a sign.
fn flag_traps(traps: &[TrapNote], sign: Sign, from: u32, flags: &mut [bool])
    ensures { IsFlagged (λ i. list_any (λ t. t.offset == from + i && is_note_of sign t) traps.now) flags.old flags.new }
{
    let mut rest = traps;
    while let [trap, after @ ..] = rest {
        flag_trap(trap, sign, from, flags);
        rest = after;
    }
}

/// Sets all flags, if all are wanted.
fn flag_all(wanted: bool, flags: &mut [bool])
    ensures { IsFlagged (λ i. wanted) flags.old flags.new }
{
    if wanted {
        flags.fill(true);
    }
}

/// Whether one of the steps of an interval, from one offset on and below another, has a sign.
pub(crate) fn any_between(signs: &Signs, sign: Sign, from: u32, end: u32) -> bool
    ensures { result ≡ has_sign_between sign from end signs.now }
{
    match sign {
        Sign::Translation => signs.translation(),
        Sign::Trap | Sign::TrapType(_) => any_has_between(signs.traps(), sign, from, end),
    }
}

/// Sets the flag of each step of an interval that has a sign. Flag number i is that of the step with the offset `from + i`.
pub(crate) fn flag_signs(signs: &Signs, sign: Sign, from: u32, flags: &mut [bool])
    ensures { IsFlagged (λ i. has_sign sign (from + i) signs.now) flags.old flags.new }
{
    match sign {
        Sign::Translation => flag_all(signs.translation(), flags),
        Sign::Trap | Sign::TrapType(_) => flag_traps(signs.traps(), sign, from, flags),
    }
}
