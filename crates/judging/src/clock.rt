// What is known of a network's clock.

// The last time at which the clock lets a change begin. The judge has its own on purpose, and does not take that of the network which it judges: a wrong one
// there is to be found.
pub const LAST_TIME: u32 = 4_294_965_247;

// The least and the most that the clock can be. An add raises it by the values that go out, and a retract by at most 2,048: no more is promised of that.
#[derive(Clone, Copy)]
pub struct Clock {
    least: u64,
    most: u64,
}

impl Clock {
    pub fn at(time: u32) -> Clock {
        let time = u64::from(time);
        Clock {
            least: time,
            most: time,
        }
    }

    // Is it past the last time, if that is known?
    pub fn spent(self) -> Option<bool> {
        let last = u64::from(LAST_TIME);
        if self.least > last {
            Some(true)
        } else if self.most <= last {
            Some(false)
        } else {
            None
        }
    }

    // After an accepted add by which as many values went out.
    pub fn after_add(self, values: u32) -> Clock {
        Clock {
            least: self.least.saturating_add(u64::from(values)),
            most: self.most.saturating_add(u64::from(values)),
        }
    }

    // After an accepted retract.
    pub fn after_retract(self) -> Clock {
        Clock {
            most: self.most.saturating_add(2048),
            ..self
        }
    }
}
