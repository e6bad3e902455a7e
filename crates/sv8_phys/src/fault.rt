//! Why an access to physical memory is refused.

use thiserror::Error;

/// Neither RAM nor a device serves the address, or not an access of that size or kind.
#[derive(Debug, Drop, Clone, Copy, PartialEq, Eq, Error)]
#[error("bus error")]
pub struct BusError;
