//! The memos of the lookaside buffer.

ghost use Rattle.std.specs.Prelude.{◌≡◌, ◌<◌, ◌^◌, IfSome};
ghost use Rattle.sv8_mmu.specs.Plain.{LeadsPlainly};

use crate::access_type::AccessType;
use crate::buffer::Key;
use crate::translation::{fault_type, marked, physical_address};
use crate::walk::{Walk, Walked};
use std::marker::Model;

/// What accesses of a type to a page come to where they are allowed and leave the entry as it is: they lead to the 4,096
/// bytes at a physical address.
#[derive(Clone, Copy)]
pub(crate) struct Plain {
    access_type: AccessType,
    base: u64,
}

impl Plain {
    /// What accesses of a type to a page come to by the end of its walk.
    fn by_end(access_type: AccessType, page: u32, end: Walked) -> Option<Plain>
        requires { page < 2 ^ 20 }
        ensures { IfSome result (λ p. LeadsPlainly p.access_type page p.base end) }
    {
        match end {
            Walked::Fault { .. } => None,
            Walked::Page { entry, level, .. } => {
                match fault_type(access_type, entry) {
                    Some(_) => return None,
                    None => {}
                }
                if marked(access_type, entry) != entry {
                    return None;
                }
                let base = physical_address(entry, level, page * 0x1000);
                Some(Plain { access_type, base })
            }
        }
    }
}

/// The walk that was used last for a purpose, with its context and page, and what accesses of one type to that page come
/// to, where that is known.
#[derive(Drop)]
pub(crate) struct Memo {
    key: Key,
    walk: Walk,
    plain: Option<Plain>,
}

impl Model for Memo {
    ghost use Rattle.sv8_mmu.specs.Kept.{Kept};
    ghost use Rattle.sv8_mmu.specs.Plain.{IsKnown};

    ghost Value = { Kept };

    ghost view = { λ m. (m.key, m.walk) };

    ghost invariant = { λ m. IsKnown m.key.page m.walk.end m.plain };
}

impl Memo {
    /// A walk of which no more is known.
    pub(crate) fn new(key: Key, walk: Walk) -> Self
        ensures { result ≡ (key, walk) }
    {
        Memo {
            key,
            walk,
            plain: None,
        }
    }

    /// The walk, for whatever context and page.
    pub(crate) fn walk(&self) -> &Walk
        ensures { result.now ≡ self.now.1 }
    {
        &self.walk
    }

    /// The walk, where it is for a key.
    #[inline(always)]
    pub(crate) fn recall(&self, key: Key) -> Option<&Walk>
        ensures { IfSome result (λ w. self.now ≡ (key, w.now)) }
    {
        if self.key == key {
            Some(&self.walk)
        } else {
            None
        }
    }

    /// Where the page of a key begins for accesses of a type, where that is known, and the walk.
    #[inline(always)]
    pub(crate) fn recall_plainly(&self, key: Key, access_type: AccessType) -> Option<(u64, &Walk)>
        ensures walk { IfSome result (λ s. self.now ≡ (key, s.1.now)) }
        ensures base { IfSome result (λ s. LeadsPlainly access_type key.page s.0 s.1.now.end) }
    {
        match self.plain {
            Some(plain) if self.key == key && plain.access_type == access_type => {
                Some((plain.base, &self.walk))
            }
            _ => None,
        }
    }

    /// Finds out what accesses of a type to the page come to, where the memo is for a key.
    pub(crate) fn know(&mut self, key: Key, access_type: AccessType)
        requires { key.page < 2 ^ 20 }
        ensures { self.new ≡ self.old }
    {
        if self.key == key {
            self.plain = Plain::by_end(access_type, key.page, self.walk.end);
        }
    }
}
