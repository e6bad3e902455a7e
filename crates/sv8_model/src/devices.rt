//! Where the devices are: the physical address of the word of each.

/// The console's input, a load of which takes the oldest waiting byte.
pub const INPUT: u64 = 0x8000_0000;

/// A load of it counts the bytes that wait at the console.
pub const WAITING: u64 = 0x8000_0004;

/// A store to it puts its low byte out at the console.
pub const OUTPUT: u64 = 0x8000_0008;

/// The timer's count.
pub const TIMER_COUNT: u64 = 0x8000_0010;

/// The timer's reload.
pub const TIMER_RELOAD: u64 = 0x8000_0014;

/// The pending interrupt levels; a store clears those whose bits are 1.
pub const PENDING: u64 = 0x8000_001c;
