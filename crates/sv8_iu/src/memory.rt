//! Loads, stores, LDSTUB and SWAP (Appendices B.1 to B.8).

ghost use Rattle.std.specs.Prelude.{◌≡◌, ◌<◌, ◌+◌, ◌*◌, ◌/◌, ◌%◌, ◌^◌, true, ◌==◌, ◌&&◌};
ghost use Rattle.sv8_model.specs.Words.{signed, low_word};
ghost use Rattle.sv8_model.specs.Size.{bytes_in};
ghost use Rattle.sv8_trap.specs.Table.{taken};
ghost use Rattle.sv8_iu.specs.Memory.{transfer_of, odd_register, takes_pair, memory_traps, pair, stored, access_of, with_pair, loaded, with_sign, transferred_data};
ghost use Rattle.sv8_iu.specs.Instruction.{alternate_traps};

use crate::operands::word_of;
use sv8_isa::MemoryOp;
use sv8_model::{Size, low_word};
use sv8_trap::{AccessRequest, Processor, Trap};

/// What a load or a store does.
#[derive(Clone, Copy)]
pub enum TransferKind {
    /// It loads a number as it is.
    Load,
    /// It loads a number whose sign goes into the bits above.
    LoadSigned,
    /// It stores what is in registers.
    Store,
    /// It exchanges a register with memory (SWAP, Appendix B.8).
    Swap,
    /// It loads a byte, and leaves ones there (LDSTUB, Appendix B.7).
    Mark,
}

/// A load or a store: what it does, and of how much.
#[derive(Clone, Copy)]
pub struct Transfer {
    pub kind: TransferKind,
    pub size: Size,
}

/// What an instruction does with memory.
#[inline(always)]
fn transfer_of(op: MemoryOp) -> Transfer
    ensures { result ≡ transfer_of op }
{
    let (kind, size) = match op {
        MemoryOp::Ld => (TransferKind::Load, Size::Word),
        MemoryOp::Ldub => (TransferKind::Load, Size::Byte),
        MemoryOp::Lduh => (TransferKind::Load, Size::Half),
        MemoryOp::Ldd => (TransferKind::Load, Size::Double),
        MemoryOp::Ldsb => (TransferKind::LoadSigned, Size::Byte),
        MemoryOp::Ldsh => (TransferKind::LoadSigned, Size::Half),
        MemoryOp::St => (TransferKind::Store, Size::Word),
        MemoryOp::Stb => (TransferKind::Store, Size::Byte),
        MemoryOp::Sth => (TransferKind::Store, Size::Half),
        MemoryOp::Std => (TransferKind::Store, Size::Double),
        MemoryOp::Swap => (TransferKind::Swap, Size::Word),
        MemoryOp::Ldstub => (TransferKind::Mark, Size::Byte),
    };
    Transfer { kind, size }
}

/// The odd register of the pair of a register.
#[inline(always)]
fn odd_register(rd: u8) -> u8
    requires { rd < 32 }
    ensures value { result ≡ odd_register rd }
    ensures register { result < 32 }
{
    rd / 2 * 2 + 1
}

/// Whether an address is a multiple of a size.
#[inline(always)]
fn is_multiple(address: u32, size: Size) -> bool
    ensures { result ≡ (address % bytes_in size == 0) }
{
    match size {
        Size::Byte => true,
        Size::Half => address % 2 == 0,
        Size::Word => address % 4 == 0,
        Size::Double => address % 8 == 0,
    }
}

/// Whether a doubleword is asked of an odd register.
#[inline(always)]
fn is_odd_pair(size: Size, rd: u8) -> bool
    ensures { result ≡ takes_pair size && rd % 2 == 1 }
{
    matches!(size, Size::Double) && rd % 2 == 1
}

/// The trap of a load or a store.
#[inline(always)]
#[tactic(auto, using(crate::proofs::Choices::memory_choice), unfolding(crate::specs::Memory::memory_traps))]
pub fn memory_trap(op: MemoryOp, rd: u8, address: u32) -> Option<Trap>
    ensures { result ≡ taken (memory_traps op rd address) }
{
    let size = transfer_of(op).size;
    if is_odd_pair(size, rd) {
        Some(Trap::IllegalInstruction)
    } else if !is_multiple(address, size) {
        Some(Trap::MemAddressNotAligned)
    } else {
        None
    }
}

/// The trap of an alternate space form.
#[tactic(auto, using(crate::proofs::Choices::alternate_choice), unfolding(crate::specs::Memory::memory_traps, crate::specs::Instruction::alternate_traps))]
pub fn alternate_trap<const NW: usize>(
    p: &Processor<NW>,
    op: MemoryOp,
    rd: u8,
    address: u32,
) -> Option<Trap>
    ensures { result ≡ taken (alternate_traps p.now (memory_traps op rd address)) }
{
    let size = transfer_of(op).size;
    if !p.registers().psr().s {
        Some(Trap::PrivilegedInstruction)
    } else if is_odd_pair(size, rd) {
        Some(Trap::IllegalInstruction)
    } else if !is_multiple(address, size) {
        Some(Trap::MemAddressNotAligned)
    } else {
        None
    }
}

/// The doubleword of two registers.
#[inline(always)]
fn pair<const NW: usize>(p: &Processor<NW>, rd: u8) -> u64
    requires { rd < 32 }
    ensures { result ≡ pair NW p.now rd }
{
    let high = p.registers().get(u32::from(rd));
    let low = p.registers().get(u32::from(odd_register(rd)));
    u64::from(high) * 0x1_0000_0000 + u64::from(low)
}

/// What a store takes of the registers.
#[inline(always)]
fn stored<const NW: usize>(p: &Processor<NW>, size: Size, rd: u8) -> u64
    requires { rd < 32 }
    ensures { result ≡ stored NW p.now size rd }
{
    match size {
        Size::Double => pair(p, rd),
        Size::Byte | Size::Half | Size::Word => u64::from(p.registers().get(u32::from(rd))),
    }
}

/// The access that an instruction asks for in an address space.
#[inline(always)]
#[tactic(auto, unfolding(crate::specs::Memory::access_of))]
pub fn access_of<const NW: usize>(
    p: &Processor<NW>,
    op: MemoryOp,
    asi: u8,
    rd: u8,
    at: u32,
) -> AccessRequest
    requires { rd < 32 }
    ensures { result ≡ access_of NW p.now op asi rd at }
{
    let Transfer { kind, size } = transfer_of(op);
    let value = match kind {
        TransferKind::Load | TransferKind::LoadSigned => return AccessRequest::Load {
            size,
            asi,
            at,
        },
        TransferKind::Store => return AccessRequest::Store {
            size,
            asi,
            at,
            value: stored(p, size, rd),
        },
        TransferKind::Swap => u64::from(p.registers().get(u32::from(rd))),
        TransferKind::Mark => 0xff,
    };
    AccessRequest::Exchange {
        size,
        asi,
        at,
        value,
    }
}

/// The number that the low byte of another stands for.
#[inline(always)]
#[tactic(auto, unfolding(sv8_model::specs::Words::signed))]
fn signed_byte(value: u64) -> i32
    ensures { result ≡ signed (value % 2 ^ 8) 8 }
{
    let byte = (value % 0x100) as i32;
    if byte < 0x80 { byte } else { byte - 0x100 }
}

/// The number that the low halfword of another stands for.
#[inline(always)]
#[tactic(auto, unfolding(sv8_model::specs::Words::signed))]
fn signed_half(value: u64) -> i32
    ensures { result ≡ signed (value % 2 ^ 16) 16 }
{
    let half = (value % 0x1_0000) as i32;
    if half < 0x8000 { half } else { half - 0x1_0000 }
}

/// A byte or a halfword with its sign in the bits above.
#[inline(always)]
#[tactic(auto, unfolding(crate::specs::Memory::sign_extended))]
fn with_sign(size: Size, value: u64) -> u32
    ensures { result ≡ with_sign size value }
{
    match size {
        Size::Byte => word_of(signed_byte(value)),
        Size::Half => word_of(signed_half(value)),
        Size::Word | Size::Double => low_word(value),
    }
}

/// Writes a doubleword to a pair of registers, and goes on.
#[inline(always)]
#[tactic(auto, unfolding(crate::specs::Memory::with_pair))]
fn finish_with_pair<const NW: usize>(p: &mut Processor<NW>, rd: u8, value: u64)
    requires { rd < 32 }
    ensures { p.new ≡ with_pair NW p.old rd value }
{
    p.set_register(rd, low_word(value / 0x1_0000_0000));
    p.finish_with(odd_register(rd), low_word(value));
}

/// The end of a load of a number as it is.
#[inline(always)]
fn finish_load<const NW: usize>(p: &mut Processor<NW>, size: Size, rd: u8, value: u64)
    requires { rd < 32 }
    ensures { p.new ≡ loaded NW p.old size rd value }
{
    match size {
        Size::Double => finish_with_pair(p, rd, value),
        Size::Byte | Size::Half | Size::Word => p.finish_with(rd, low_word(value)),
    }
}

/// The end of a load or a store, with the number that its access gave.
#[inline(always)]
#[tactic(auto, unfolding(crate::specs::Memory::transferred_data))]
pub fn finish_access<const NW: usize>(p: &mut Processor<NW>, op: MemoryOp, rd: u8, value: u64)
    requires { rd < 32 }
    ensures { p.new ≡ transferred_data NW p.old op rd value }
{
    let Transfer { kind, size } = transfer_of(op);
    match kind {
        TransferKind::Load => finish_load(p, size, rd, value),
        TransferKind::LoadSigned => p.finish_with(rd, with_sign(size, value)),
        TransferKind::Store => p.advance(),
        TransferKind::Swap | TransferKind::Mark => p.finish_with(rd, low_word(value)),
    }
}
