//! A clock that stands still.

ghost use Rattle.std.specs.Prelude.{◌≡◌};
ghost use Rattle.port_model.specs.Streams.{Reads};
ghost use Rattle.port_model.specs.MemoryStreams.{FixedClockState, clock_readings, counted};

use crate::streams::Clock;
use fault_counts::raised;
use std::marker::Model;

/// A clock that always gives the same reading. It tells its readings up to 2^64 - 2 of them.
#[derive(Drop)]
pub struct FixedClock {
    moment: u64,
    count: u64,
}

impl Model for FixedClock {
    ghost use Rattle.port_model.specs.MemoryStreams.{FixedClockState};

    ghost Value = { FixedClockState };

    ghost view = { λ clock. record { moment = clock.moment; count = clock.count } };
}

impl FixedClock {
    /// A clock that stands at `now`, in seconds since 1970.
    pub fn new(now: u64) -> FixedClock
        ensures { result ≡ record { moment = now; count = 0 } }
    {
        FixedClock {
            moment: now,
            count: 0,
        }
    }
}

impl Clock for FixedClock {
    ghost readings = { clock_readings };

    fn now(&mut self) -> u64
        ensures reads { Reads result (clock_readings self.old) (clock_readings self.new) }
        ensures same { result ≡ self.old.moment }
        ensures after { self.new ≡ record { moment = self.old.moment; count = counted self.old.count } }
    {
        self.count = raised(self.count);
        self.moment
    }
}
