//! The table of traps.

ghost use Rattle.std.specs.Prelude.{◌≡◌, ◌<◌, length, Some};
ghost use Rattle.sv8_trap.specs.Table.{row_of, is_before, first_of, first_among, taken};

/// A trap, by its name in table 7-1.
#[derive(Clone, Copy)]
pub enum Trap {
    InstructionAccessException,
    PrivilegedInstruction,
    IllegalInstruction,
    FpDisabled,
    CpDisabled,
    WindowOverflow,
    WindowUnderflow,
    MemAddressNotAligned,
    DataAccessException,
    TagOverflow,
    DivisionByZero,
    /// A trap instruction (Ticc) with its number, of which the low seven bits count.
    TrapInstruction(u8),
    /// An interrupt request with its level, 1 to 15, of which the low four bits count.
    Interrupt(u8),
}

/// A row of table 7-1.
#[derive(Clone, Copy)]
pub struct Row {
    /// The priority, of which 1 is the highest.
    pub priority: u8,
    /// The trap type, tt, which bits 11:4 of the TBR get.
    pub trap_type: u8,
}

#[inline(always)]
fn make_row(priority: u8, trap_type: u8) -> Row
    ensures { result ≡ record { priority = priority; trap_type = trap_type } }
{
    Row {
        priority,
        trap_type,
    }
}

impl Trap {
    /// The trap's row of the table: its priority and its type.
    #[tactic(auto, unfolding(crate::specs::Table::row_of))]
    pub fn row(self) -> Row
        ensures { result ≡ row_of self }
    {
        match self {
            Trap::InstructionAccessException => make_row(5, 0x01),
            Trap::PrivilegedInstruction => make_row(6, 0x03),
            Trap::IllegalInstruction => make_row(7, 0x02),
            Trap::FpDisabled => make_row(8, 0x04),
            Trap::CpDisabled => make_row(8, 0x24),
            Trap::WindowOverflow => make_row(9, 0x05),
            Trap::WindowUnderflow => make_row(9, 0x06),
            Trap::MemAddressNotAligned => make_row(10, 0x07),
            Trap::DataAccessException => make_row(13, 0x09),
            Trap::TagOverflow => make_row(14, 0x0a),
            Trap::DivisionByZero => make_row(15, 0x2a),
            Trap::TrapInstruction(number) => make_row(16, 0x80 + number % 0x80),
            Trap::Interrupt(level) => make_row(32 - level % 0x10, 0x10 + level % 0x10),
        }
    }
}

/// Whether a row comes before another.
fn is_before(a: Row, b: Row) -> bool
    ensures { result ≡ is_before a b }
{
    a.priority < b.priority || (a.priority == b.priority && a.trap_type < b.trap_type)
}

/// Of two traps the one that comes first.
fn first_of(t: Trap, u: Trap) -> Trap
    ensures { result ≡ first_of t u }
{
    if is_before(u.row(), t.row()) { u } else { t }
}

/// Of a trap and others the one that comes first.
fn first_among(first: Trap, others: &[Trap]) -> Trap
    ensures { result ≡ first_among first others.now }
{
    let mut first = first;
    let mut rest = others;
    while let [next, after @ ..] = rest {
        first = first_of(first, *next);
        rest = after;
    }
    first
}

/// Of several traps the one that is taken: that of the lowest priority number, and of two with the same number the one of
/// the lower type. Section 7.4.
pub fn select(traps: &[Trap]) -> Trap
    requires { 0 < length traps.now }
    ensures { Some result ≡ taken traps.now }
{
    match traps {
        [first, others @ ..] => first_among(*first, others),
        [] => Trap::IllegalInstruction,
    }
}
