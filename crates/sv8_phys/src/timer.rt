//! The timer.

/// The timer's registers.
#[derive(Clone, Copy)]
pub struct Timer {
    /// How many steps are left until the timer expires; 0 where it stands still.
    pub count: u32,
    /// The count that it starts from again when it expires.
    pub reload: u32,
}
