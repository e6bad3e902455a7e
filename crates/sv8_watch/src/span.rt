//! The bytes of RAM that a condition is about.

ghost use Rattle.std.specs.Prelude.{◌≡◌};
ghost use Rattle.sv8_watch.specs.Touching.{some_bytes, word_span, span_of, kind_of};

use crate::condition::Condition;
use sv8_phys::TouchKind;

/// So many bytes of RAM from a physical address on.
#[derive(Clone, Copy)]
pub struct Span {
    pub address: u32,
    pub count: u32,
}

/// So many bytes from an address on, if any.
#[inline(always)]
fn some_bytes(address: u32, count: u32) -> Option<Span>
    ensures { result ≡ some_bytes address count }
{
    if count == 0 {
        None
    } else {
        Some(Span { address, count })
    }
}

/// The word at an address, which is a multiple of 4.
#[inline(always)]
fn word_span(address: u32) -> Option<Span>
    ensures { result ≡ word_span address }
{
    if address % 4 == 0 {
        some_bytes(address, 4)
    } else {
        None
    }
}

impl Condition {
    /// The bytes of RAM that a step has to touch, or its events to poke, where it meets the condition: the law
    /// `spared_steps_miss` says so where they lie in RAM. `None` for a condition on anything else, for one on no bytes, and for a
    /// word whose address is no multiple of 4.
    #[inline(always)]
    pub fn span(self) -> Option<Span>
        ensures { result ≡ span_of self }
    {
        match self {
            Condition::Load { address, count }
            | Condition::Store { address, count }
            | Condition::Change { address, count } => some_bytes(address, count),
            Condition::Touch(address) => word_span(address),
            Condition::Pc(_)
            | Condition::Trap
            | Condition::TrapType(_)
            | Condition::Error
            | Condition::Input
            | Condition::Output
            | Condition::Event
            | Condition::Every(_) => None,
        }
    }

    /// Which touches of these bytes count. A load or a store is an access to data, and a byte that changes is data; a word is
    /// touched by fetches, too.
    #[inline(always)]
    pub fn touch_kind(self) -> TouchKind
        ensures { result ≡ kind_of self }
    {
        match self {
            Condition::Load { .. } | Condition::Store { .. } | Condition::Change { .. } => {
                TouchKind::Data
            }
            Condition::Pc(_)
            | Condition::Touch(_)
            | Condition::Trap
            | Condition::TrapType(_)
            | Condition::Error
            | Condition::Input
            | Condition::Output
            | Condition::Event
            | Condition::Every(_) => TouchKind::Any,
        }
    }
}
