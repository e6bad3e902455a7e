//! Names that follow a percent sign.

ghost use Rattle.std.specs.Prelude.{◌≡◌};
ghost use Rattle.sv8_statements.specs.Table.{look_up};
ghost use Rattle.sv8_tokens.specs.Percents.{percents};

use crate::token::Percent;
use sv8_isa::StateRegister;
use sv8_statements::{Entry, Register, find_named};

macro_rules! entries {
    ($($name:literal => $value:expr,)*) => {
        [$(Entry { name: $name, value: $value }),*]
    };
}

const PERCENTS: [Entry<Percent>; 72] = entries! {
    b"g0" => Percent::Register(Register::G0),
    b"g1" => Percent::Register(Register::G1),
    b"g2" => Percent::Register(Register::G2),
    b"g3" => Percent::Register(Register::G3),
    b"g4" => Percent::Register(Register::G4),
    b"g5" => Percent::Register(Register::G5),
    b"g6" => Percent::Register(Register::G6),
    b"g7" => Percent::Register(Register::G7),
    b"o0" => Percent::Register(Register::O0),
    b"o1" => Percent::Register(Register::O1),
    b"o2" => Percent::Register(Register::O2),
    b"o3" => Percent::Register(Register::O3),
    b"o4" => Percent::Register(Register::O4),
    b"o5" => Percent::Register(Register::O5),
    b"o6" => Percent::Register(Register::O6),
    b"o7" => Percent::Register(Register::O7),
    b"l0" => Percent::Register(Register::L0),
    b"l1" => Percent::Register(Register::L1),
    b"l2" => Percent::Register(Register::L2),
    b"l3" => Percent::Register(Register::L3),
    b"l4" => Percent::Register(Register::L4),
    b"l5" => Percent::Register(Register::L5),
    b"l6" => Percent::Register(Register::L6),
    b"l7" => Percent::Register(Register::L7),
    b"i0" => Percent::Register(Register::I0),
    b"i1" => Percent::Register(Register::I1),
    b"i2" => Percent::Register(Register::I2),
    b"i3" => Percent::Register(Register::I3),
    b"i4" => Percent::Register(Register::I4),
    b"i5" => Percent::Register(Register::I5),
    b"i6" => Percent::Register(Register::I6),
    b"i7" => Percent::Register(Register::I7),
    b"r0" => Percent::Register(Register::G0),
    b"r1" => Percent::Register(Register::G1),
    b"r2" => Percent::Register(Register::G2),
    b"r3" => Percent::Register(Register::G3),
    b"r4" => Percent::Register(Register::G4),
    b"r5" => Percent::Register(Register::G5),
    b"r6" => Percent::Register(Register::G6),
    b"r7" => Percent::Register(Register::G7),
    b"r8" => Percent::Register(Register::O0),
    b"r9" => Percent::Register(Register::O1),
    b"r10" => Percent::Register(Register::O2),
    b"r11" => Percent::Register(Register::O3),
    b"r12" => Percent::Register(Register::O4),
    b"r13" => Percent::Register(Register::O5),
    b"r14" => Percent::Register(Register::O6),
    b"r15" => Percent::Register(Register::O7),
    b"r16" => Percent::Register(Register::L0),
    b"r17" => Percent::Register(Register::L1),
    b"r18" => Percent::Register(Register::L2),
    b"r19" => Percent::Register(Register::L3),
    b"r20" => Percent::Register(Register::L4),
    b"r21" => Percent::Register(Register::L5),
    b"r22" => Percent::Register(Register::L6),
    b"r23" => Percent::Register(Register::L7),
    b"r24" => Percent::Register(Register::I0),
    b"r25" => Percent::Register(Register::I1),
    b"r26" => Percent::Register(Register::I2),
    b"r27" => Percent::Register(Register::I3),
    b"r28" => Percent::Register(Register::I4),
    b"r29" => Percent::Register(Register::I5),
    b"r30" => Percent::Register(Register::I6),
    b"r31" => Percent::Register(Register::I7),
    b"sp" => Percent::Register(Register::O6),
    b"fp" => Percent::Register(Register::I6),
    b"y" => Percent::State(StateRegister::Y),
    b"psr" => Percent::State(StateRegister::Psr),
    b"wim" => Percent::State(StateRegister::Wim),
    b"tbr" => Percent::State(StateRegister::Tbr),
    b"hi" => Percent::High,
    b"lo" => Percent::Low,
};

/// What a name that follows a percent sign stands for.
#[tactic(auto, unfolding(crate::specs::Percents::percents))]
pub fn percent_of(name: &[u8]) -> Option<Percent>
    ensures { result ≡ look_up percents name.now }
{
    find_named(&PERCENTS, name)
}
