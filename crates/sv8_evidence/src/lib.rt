//! What the record of a run shows of its steps, without making one of them: which have a sign, and which touch bytes of RAM.
#![tactic(auto)]

mod showing;
mod signs;
mod touching;

pub use showing::{flag_shown, shows_none};
pub use signs::Sign;
pub use touching::{flag_touching, is_untouched};
