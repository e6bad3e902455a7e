//! What comes in at the console under a timeline.

ghost use Rattle.sv8_time.specs.Schedule.{arrived};

use crate::timeline::Timeline;
use sv8_model::Arrivals;

impl Arrivals for Timeline {
    ghost use Rattle.sv8_time.specs.Schedule.{arrived};

    ghost arrived = { arrived };

    fn count_below(&self, before: u32) -> u32 {
        self.delivered(before)
    }

    fn byte_below(&self, before: u32, k: u32) -> Option<u8> {
        if k < self.delivered(before) {
            self.byte(k)
        } else {
            None
        }
    }
}
