//! Mnemonics, and the shape of what follows each.

ghost use Rattle.std.specs.Prelude.{◌≡◌};
ghost use Rattle.sv8_statements.specs.Table.{look_up};
ghost use Rattle.sv8_forms.specs.Mnemonics.{operations, transfers, synthetics, other_shape, shape_named};

use sv8_isa::{ArithOp, Cond, MemoryOp, ShiftOp, TaggedOp};
use sv8_statements::{Entry, Motion, Operation, Register, Width, find_named};

/// A directive, or `set`, which is no single instruction.
#[derive(Clone, Copy)]
pub enum Directive {
    Set,
    Motion(Motion),
    Data(Width),
    Ascii,
    Equ,
}

/// What follows a mnemonic, and what its forms share.
#[derive(Clone, Copy)]
pub enum Shape {
    /// A register, a register or an immediate value, and the register for the result.
    Three(Operation),
    Shift(ShiftOp),
    Load(MemoryOp),
    Store(MemoryOp),
    LoadAlternate(MemoryOp),
    StoreAlternate(MemoryOp),
    Sethi,
    Read,
    Write,
    Branch { cond: Cond, annul: bool },
    Trap(Cond),
    Call,
    Jmpl,
    /// An address alone.
    To(Operation),
    Stbar,
    Unimp,
    Nop,
    /// A jump to 8 bytes behind the address in that register.
    Return(Register),
    Test(Operation),
    Not(Operation),
    Negate(Operation),
    /// `inc`, `dec` and their forms with cc: by 1, or by an immediate value.
    Step(Operation),
    TestBits(Operation),
    /// `bset`, `bclr` and `btog`: a register is read and written.
    Update(Operation),
    Compare(Operation),
    Clear,
    ClearAt(MemoryOp),
    Mov,
    Directive(Directive),
}

macro_rules! entries {
    ($($name:literal => $value:expr,)*) => {
        [$(Entry { name: $name, value: $value }),*]
    };
}

/// Arithmetic, loads and stores, and state registers.
const OPERATIONS: [Entry<Shape>; 65] = entries! {
    b"add" => Shape::Three(Operation::Arith { op: ArithOp::Add, cc: false }),
    b"addcc" => Shape::Three(Operation::Arith { op: ArithOp::Add, cc: true }),
    b"sub" => Shape::Three(Operation::Arith { op: ArithOp::Sub, cc: false }),
    b"subcc" => Shape::Three(Operation::Arith { op: ArithOp::Sub, cc: true }),
    b"addx" => Shape::Three(Operation::Arith { op: ArithOp::Addx, cc: false }),
    b"addxcc" => Shape::Three(Operation::Arith { op: ArithOp::Addx, cc: true }),
    b"subx" => Shape::Three(Operation::Arith { op: ArithOp::Subx, cc: false }),
    b"subxcc" => Shape::Three(Operation::Arith { op: ArithOp::Subx, cc: true }),
    b"and" => Shape::Three(Operation::Arith { op: ArithOp::And, cc: false }),
    b"andcc" => Shape::Three(Operation::Arith { op: ArithOp::And, cc: true }),
    b"andn" => Shape::Three(Operation::Arith { op: ArithOp::Andn, cc: false }),
    b"andncc" => Shape::Three(Operation::Arith { op: ArithOp::Andn, cc: true }),
    b"or" => Shape::Three(Operation::Arith { op: ArithOp::Or, cc: false }),
    b"orcc" => Shape::Three(Operation::Arith { op: ArithOp::Or, cc: true }),
    b"orn" => Shape::Three(Operation::Arith { op: ArithOp::Orn, cc: false }),
    b"orncc" => Shape::Three(Operation::Arith { op: ArithOp::Orn, cc: true }),
    b"xor" => Shape::Three(Operation::Arith { op: ArithOp::Xor, cc: false }),
    b"xorcc" => Shape::Three(Operation::Arith { op: ArithOp::Xor, cc: true }),
    b"xnor" => Shape::Three(Operation::Arith { op: ArithOp::Xnor, cc: false }),
    b"xnorcc" => Shape::Three(Operation::Arith { op: ArithOp::Xnor, cc: true }),
    b"umul" => Shape::Three(Operation::Arith { op: ArithOp::Umul, cc: false }),
    b"umulcc" => Shape::Three(Operation::Arith { op: ArithOp::Umul, cc: true }),
    b"smul" => Shape::Three(Operation::Arith { op: ArithOp::Smul, cc: false }),
    b"smulcc" => Shape::Three(Operation::Arith { op: ArithOp::Smul, cc: true }),
    b"udiv" => Shape::Three(Operation::Arith { op: ArithOp::Udiv, cc: false }),
    b"udivcc" => Shape::Three(Operation::Arith { op: ArithOp::Udiv, cc: true }),
    b"sdiv" => Shape::Three(Operation::Arith { op: ArithOp::Sdiv, cc: false }),
    b"sdivcc" => Shape::Three(Operation::Arith { op: ArithOp::Sdiv, cc: true }),
    b"taddcc" => Shape::Three(Operation::Tagged(TaggedOp::TaddCc)),
    b"taddcctv" => Shape::Three(Operation::Tagged(TaggedOp::TaddCcTv)),
    b"tsubcc" => Shape::Three(Operation::Tagged(TaggedOp::TsubCc)),
    b"tsubcctv" => Shape::Three(Operation::Tagged(TaggedOp::TsubCcTv)),
    b"mulscc" => Shape::Three(Operation::Mulscc),
    b"save" => Shape::Three(Operation::Save),
    b"restore" => Shape::Three(Operation::Restore),
    b"sll" => Shape::Shift(ShiftOp::Sll),
    b"srl" => Shape::Shift(ShiftOp::Srl),
    b"sra" => Shape::Shift(ShiftOp::Sra),
    b"ldsb" => Shape::Load(MemoryOp::Ldsb),
    b"ldsh" => Shape::Load(MemoryOp::Ldsh),
    b"ldub" => Shape::Load(MemoryOp::Ldub),
    b"lduh" => Shape::Load(MemoryOp::Lduh),
    b"ld" => Shape::Load(MemoryOp::Ld),
    b"ldd" => Shape::Load(MemoryOp::Ldd),
    b"ldstub" => Shape::Load(MemoryOp::Ldstub),
    b"swap" => Shape::Load(MemoryOp::Swap),
    b"stb" => Shape::Store(MemoryOp::Stb),
    b"sth" => Shape::Store(MemoryOp::Sth),
    b"st" => Shape::Store(MemoryOp::St),
    b"std" => Shape::Store(MemoryOp::Std),
    b"ldsba" => Shape::LoadAlternate(MemoryOp::Ldsb),
    b"ldsha" => Shape::LoadAlternate(MemoryOp::Ldsh),
    b"lduba" => Shape::LoadAlternate(MemoryOp::Ldub),
    b"lduha" => Shape::LoadAlternate(MemoryOp::Lduh),
    b"lda" => Shape::LoadAlternate(MemoryOp::Ld),
    b"ldda" => Shape::LoadAlternate(MemoryOp::Ldd),
    b"ldstuba" => Shape::LoadAlternate(MemoryOp::Ldstub),
    b"swapa" => Shape::LoadAlternate(MemoryOp::Swap),
    b"stba" => Shape::StoreAlternate(MemoryOp::Stb),
    b"stha" => Shape::StoreAlternate(MemoryOp::Sth),
    b"sta" => Shape::StoreAlternate(MemoryOp::St),
    b"stda" => Shape::StoreAlternate(MemoryOp::Std),
    b"sethi" => Shape::Sethi,
    b"rd" => Shape::Read,
    b"wr" => Shape::Write,
};

/// Branches, traps and jumps, and what needs no register.
const TRANSFERS: [Entry<Shape>; 48] = entries! {
    b"ba" => Shape::Branch { cond: Cond::Always, annul: false },
    b"b" => Shape::Branch { cond: Cond::Always, annul: false },
    b"bn" => Shape::Branch { cond: Cond::Never, annul: false },
    b"bne" => Shape::Branch { cond: Cond::NotEqual, annul: false },
    b"bnz" => Shape::Branch { cond: Cond::NotEqual, annul: false },
    b"be" => Shape::Branch { cond: Cond::Equal, annul: false },
    b"bz" => Shape::Branch { cond: Cond::Equal, annul: false },
    b"bg" => Shape::Branch { cond: Cond::Greater, annul: false },
    b"ble" => Shape::Branch { cond: Cond::LessOrEqual, annul: false },
    b"bge" => Shape::Branch { cond: Cond::GreaterOrEqual, annul: false },
    b"bl" => Shape::Branch { cond: Cond::Less, annul: false },
    b"bgu" => Shape::Branch { cond: Cond::GreaterUnsigned, annul: false },
    b"bleu" => Shape::Branch { cond: Cond::LessOrEqualUnsigned, annul: false },
    b"bcc" => Shape::Branch { cond: Cond::CarryClear, annul: false },
    b"bgeu" => Shape::Branch { cond: Cond::CarryClear, annul: false },
    b"bcs" => Shape::Branch { cond: Cond::CarrySet, annul: false },
    b"blu" => Shape::Branch { cond: Cond::CarrySet, annul: false },
    b"bpos" => Shape::Branch { cond: Cond::Positive, annul: false },
    b"bneg" => Shape::Branch { cond: Cond::Negative, annul: false },
    b"bvc" => Shape::Branch { cond: Cond::OverflowClear, annul: false },
    b"bvs" => Shape::Branch { cond: Cond::OverflowSet, annul: false },
    b"ta" => Shape::Trap(Cond::Always),
    b"tn" => Shape::Trap(Cond::Never),
    b"tne" => Shape::Trap(Cond::NotEqual),
    b"tnz" => Shape::Trap(Cond::NotEqual),
    b"te" => Shape::Trap(Cond::Equal),
    b"tz" => Shape::Trap(Cond::Equal),
    b"tg" => Shape::Trap(Cond::Greater),
    b"tle" => Shape::Trap(Cond::LessOrEqual),
    b"tge" => Shape::Trap(Cond::GreaterOrEqual),
    b"tl" => Shape::Trap(Cond::Less),
    b"tgu" => Shape::Trap(Cond::GreaterUnsigned),
    b"tleu" => Shape::Trap(Cond::LessOrEqualUnsigned),
    b"tcc" => Shape::Trap(Cond::CarryClear),
    b"tgeu" => Shape::Trap(Cond::CarryClear),
    b"tcs" => Shape::Trap(Cond::CarrySet),
    b"tlu" => Shape::Trap(Cond::CarrySet),
    b"tpos" => Shape::Trap(Cond::Positive),
    b"tneg" => Shape::Trap(Cond::Negative),
    b"tvc" => Shape::Trap(Cond::OverflowClear),
    b"tvs" => Shape::Trap(Cond::OverflowSet),
    b"call" => Shape::Call,
    b"jmpl" => Shape::Jmpl,
    b"jmp" => Shape::To(Operation::Jmpl),
    b"rett" => Shape::To(Operation::Rett),
    b"flush" => Shape::To(Operation::Flush),
    b"stbar" => Shape::Stbar,
    b"unimp" => Shape::Unimp,
};

/// Synthetic instructions and directives.
const SYNTHETICS: [Entry<Shape>; 28] = entries! {
    b"nop" => Shape::Nop,
    b"ret" => Shape::Return(Register::I7),
    b"retl" => Shape::Return(Register::O7),
    b"tst" => Shape::Test(Operation::Arith { op: ArithOp::Or, cc: true }),
    b"not" => Shape::Not(Operation::Arith { op: ArithOp::Xnor, cc: false }),
    b"neg" => Shape::Negate(Operation::Arith { op: ArithOp::Sub, cc: false }),
    b"inc" => Shape::Step(Operation::Arith { op: ArithOp::Add, cc: false }),
    b"inccc" => Shape::Step(Operation::Arith { op: ArithOp::Add, cc: true }),
    b"dec" => Shape::Step(Operation::Arith { op: ArithOp::Sub, cc: false }),
    b"deccc" => Shape::Step(Operation::Arith { op: ArithOp::Sub, cc: true }),
    b"btst" => Shape::TestBits(Operation::Arith { op: ArithOp::And, cc: true }),
    b"bset" => Shape::Update(Operation::Arith { op: ArithOp::Or, cc: false }),
    b"bclr" => Shape::Update(Operation::Arith { op: ArithOp::Andn, cc: false }),
    b"btog" => Shape::Update(Operation::Arith { op: ArithOp::Xor, cc: false }),
    b"cmp" => Shape::Compare(Operation::Arith { op: ArithOp::Sub, cc: true }),
    b"clr" => Shape::Clear,
    b"clrb" => Shape::ClearAt(MemoryOp::Stb),
    b"clrh" => Shape::ClearAt(MemoryOp::Sth),
    b"mov" => Shape::Mov,
    b"set" => Shape::Directive(Directive::Set),
    b".org" => Shape::Directive(Directive::Motion(Motion::Org)),
    b".skip" => Shape::Directive(Directive::Motion(Motion::Skip)),
    b".align" => Shape::Directive(Directive::Motion(Motion::Align)),
    b".byte" => Shape::Directive(Directive::Data(Width::Byte)),
    b".half" => Shape::Directive(Directive::Data(Width::Half)),
    b".word" => Shape::Directive(Directive::Data(Width::Word)),
    b".ascii" => Shape::Directive(Directive::Ascii),
    b".equ" => Shape::Directive(Directive::Equ),
};

#[tactic(auto, unfolding(crate::specs::Mnemonics::operations))]
fn operation(name: &[u8]) -> Option<Shape>
    ensures { result ≡ look_up operations name.now }
{
    find_named(&OPERATIONS, name)
}

#[tactic(auto, unfolding(crate::specs::Mnemonics::transfers))]
fn transfer(name: &[u8]) -> Option<Shape>
    ensures { result ≡ look_up transfers name.now }
{
    find_named(&TRANSFERS, name)
}

#[tactic(auto, unfolding(crate::specs::Mnemonics::synthetics))]
fn synthetic(name: &[u8]) -> Option<Shape>
    ensures { result ≡ look_up synthetics name.now }
{
    find_named(&SYNTHETICS, name)
}

#[tactic(auto, unfolding(crate::specs::Mnemonics::other_shape))]
fn other_shape(name: &[u8]) -> Option<Shape>
    ensures { result ≡ other_shape name.now }
{
    match transfer(name) {
        None => synthetic(name),
        found => found,
    }
}

/// The shape of the statements of a mnemonic.
#[tactic(auto, unfolding(crate::specs::Mnemonics::shape_named))]
pub fn shape_of(name: &[u8]) -> Option<Shape>
    ensures { result ≡ shape_named name.now }
{
    match operation(name) {
        None => other_shape(name),
        found => found,
    }
}
