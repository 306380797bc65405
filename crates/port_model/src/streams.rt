//! Where bytes come from, where they go, and the clock.

ghost use Rattle.std.specs.Prelude.{ℕ, ◌≡◌, ◌≤◌, ◌<◌, List, Option, IfOk, OnOk, OnErr, length, is_some, take};
ghost use Rattle.fault_counts.specs.Rose.{Rose};
ghost use Rattle.port_model.specs.Streams.{Takes, Appends, Reads};

/// A read of a source failed. The source counts it.
#[derive(Clone, Copy, Debug, PartialEq, Eq)]
pub struct SourceFault;

/// A write to a sink failed. The sink counts it.
#[derive(Clone, Copy, Debug, PartialEq, Eq)]
pub struct SinkFault;

/// Where bytes come from, in order, as standard input.
pub trait Source {
    /// The bytes that are left to read, where the source tells them. Whether it does never changes.
    ghost left: { Self → Option (List ℕ) };

    /// How many faults there were. It never falls, and stays at `u64::MAX` once it is there.
    ghost faults: { Self → ℕ };

    /// Reads bytes into the front of `buf`, and answers how many. None for a buffer that isn't empty means the end.
    fn read(&mut self, buf: &mut [u8]) -> Result<usize, SourceFault>
        ensures within { IfOk result (λ n. n ≤ length buf.old) }
        ensures taken { IfOk result (λ n. Takes n buf.new (left self.old) (left self.new)) }
        ensures cause { OnErr result (Rose (faults self.old) (faults self.new)) }
        ensures quiet { OnOk result (faults self.new ≡ faults self.old) }
        ensures kept { OnErr result (left self.new ≡ left self.old) }
        ensures count { faults self.old ≤ faults self.new };
}

/// Where bytes go, in order, as standard output.
pub trait Sink {
    /// The bytes that were written, where the sink tells them. Whether it does never changes.
    ghost written: { Self → Option (List ℕ) };

    /// How many faults there were. It never falls, and stays at `u64::MAX` once it is there.
    ghost faults: { Self → ℕ };

    /// Writes bytes from the front of `bytes`, and answers how many. To take none of a piece that isn't empty is a fault.
    fn write(&mut self, bytes: &[u8]) -> Result<usize, SinkFault>
        ensures within { IfOk result (λ n. n ≤ length bytes.now) }
        ensures some { IfOk result (λ n. 0 < length bytes.now → 0 < n) }
        ensures appended { IfOk result (λ n. Appends (take n bytes.now) (written self.old) (written self.new)) }
        ensures cause { OnErr result (Rose (faults self.old) (faults self.new)) }
        ensures quiet { OnOk result (faults self.new ≡ faults self.old) }
        ensures kept { OnErr result (written self.new ≡ written self.old) }
        ensures count { faults self.old ≤ faults self.new };
}

/// A clock.
pub trait Clock {
    /// The readings that it gave, the newest first, where it tells them. It may stop telling them, and doesn't begin to.
    ghost readings: { Self → Option (List ℕ) };

    /// The seconds since 1970. Its users take a reading past the year 9999 as the last second of that year.
    fn now(&mut self) -> u64
        ensures { Reads result (readings self.old) (readings self.new) };
}
