//! A word that differs.

/// A word of RAM by its address, as it was before and as it is now.
#[derive(Clone, Copy)]
pub struct Difference {
    pub address: u32,
    pub old: u32,
    pub new: u32,
}
