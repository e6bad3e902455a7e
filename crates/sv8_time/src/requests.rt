//! The interrupt requests of a timeline.

ghost use Rattle.std.specs.Prelude.{◌≡◌, ◌==◌, find, option_map};
ghost use Rattle.sv8_time.specs.Schedule.{IsNextRequest};

use crate::ordered::{Keyed, Ordered};
use sv8_model::Level;

/// An interrupt request from outside.
#[derive(Drop, Clone, Copy)]
pub struct Request {
    /// The step at which it happens.
    pub step: u32,
    /// The interrupt request level.
    pub level: Level,
}

impl Keyed for Request {
    ghost major_of = { λ r. r.step };

    ghost minor_of = { λ r. r.level };

    fn major(&self) -> u32 {
        self.step
    }

    fn minor(&self) -> u32 {
        self.level.number()
    }
}

/// Requests in rising step, and within a step in rising level.
pub(crate) type Requests = Ordered<Request>;

/// The least step above one in which a level is requested.
pub(crate) fn next_request(requests: &Requests, level: Level, after: u32) -> Option<u32>
    ensures { IsNextRequest level after requests.now result }
{
    first_of_level(requests.behind(after), level)
}

/// The step of the first request of a level.
fn first_of_level(requests: &[Request], level: Level) -> Option<u32>
    ensures { result ≡ option_map (λ r. r.step) (find (λ r. r.level == level) requests.now) }
{
    requests
        .iter()
        .find(|request| request.level == level)
        .map(|request| request.step)
}
