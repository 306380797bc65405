//! The clock of the system.

ghost use Rattle.std.specs.Prelude.{None};

use std::time::{self, SystemTime};

/// The clock of the system. Where it can't be read, or stands before 1970, the last reading is given again, at first
/// the first second of 1970.
#[derive(Drop)]
pub struct SystemClock<'a, T> {
    system: &'a T,
    last: u64,
}

impl<'a, T> SystemClock<'a, T> {
    /// The clock of this system.
    pub fn new(system: &'a T) -> SystemClock<'a, T> {
        SystemClock { system, last: 0 }
    }
}

impl<T: time::Clock> port_model::Clock for SystemClock<'_, T> {
    ghost readings = { λ _. None };

    fn now(&mut self) -> u64 {
        if let Ok(time) = SystemTime::now(self.system)
            && let Ok(passed) = time.duration_since(SystemTime::UNIX_EPOCH)
        {
            self.last = passed.as_secs();
        }
        self.last
    }
}
