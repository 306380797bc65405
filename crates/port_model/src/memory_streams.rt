//! Sources and sinks in memory.

ghost use Rattle.std.specs.Prelude.{◌≡◌, ◌≤◌, ◌<◌, ◌+◌, ◌||◌, ◌&&◌, false, not, [], ◌++◌, length, take, drop, min, IfOk, OnOk, OnErr, Ok, is_err, if◌then◌else◌};
ghost use Rattle.fault_counts.specs.Rose.{Rose};
ghost use Rattle.port_model.specs.Streams.{Takes, Appends};
ghost use Rattle.port_model.specs.MemoryStreams.{MemorySourceState, MemorySinkState, fails_after, counted, source_left, source_faults, sink_written, sink_faults};

use crate::streams::{Sink, SinkFault, Source, SourceFault};
use fault_counts::raised;
use std::alloc::{AllocError, Global};
use std::marker::Model;

fn fails_after(calls: u64, fails: &[u64]) -> bool
    ensures { result ≡ fails_after calls fails.now }
{
    calls < u64::MAX && fails.contains(&(calls + 1))
}

/// A source of the bytes that it is given.
#[derive(Drop)]
pub struct MemorySource {
    bytes: Vec<u8>,
    read: usize,
    fails: Vec<u64>,
    calls: u64,
    faults: u64,
}

impl Model for MemorySource {
    ghost use Rattle.std.specs.Prelude.{◌≤◌, length, drop};
    ghost use Rattle.port_model.specs.MemoryStreams.{MemorySourceState};

    ghost Value = { MemorySourceState };

    ghost view = { λ source. record { left = drop source.read source.bytes.items; fails = source.fails.items; calls = source.calls; faults = source.faults } };

    ghost invariant = { λ source. source.read ≤ length source.bytes.items };
}

impl MemorySource {
    /// A source of `bytes`, whose calls with a number in `fails` fail. Calls are numbered from 1.
    pub fn new(alloc: Global, bytes: Vec<u8>, fails: Vec<u64>) -> Result<MemorySource, AllocError>
        ensures { IfOk result (λ source. source ≡ record { left = bytes.items; fails = fails.items; calls = 0; faults = 0 }) }
    {
        let _ = alloc;
        Ok(MemorySource {
            bytes,
            read: 0,
            fails,
            calls: 0,
            faults: 0,
        })
    }
}

impl Source for MemorySource {
    ghost left = { source_left };

    ghost faults = { source_faults };

    /// Gives as many bytes as fit.
    fn read(&mut self, buf: &mut [u8]) -> Result<usize, SourceFault>
        ensures within { IfOk result (λ n. n ≤ length buf.old) }
        ensures taken { IfOk result (λ n. Takes n buf.new (source_left self.old) (source_left self.new)) }
        ensures cause { OnErr result (Rose (source_faults self.old) (source_faults self.new)) }
        ensures quiet { OnOk result (source_faults self.new ≡ source_faults self.old) }
        ensures kept { OnErr result (source_left self.new ≡ source_left self.old) }
        ensures count { source_faults self.old ≤ source_faults self.new }
        ensures fails { is_err result ≡ fails_after self.old.calls self.old.fails }
        ensures all { IfOk result (λ n. n ≡ min (length buf.old) (length self.old.left)) }
        ensures after { self.new ≡ record { left = self.new.left; fails = self.old.fails; calls = counted self.old.calls; faults = if is_err result then counted self.old.faults else self.old.faults } }
    {
        let fails = fails_after(self.calls, &self.fails);
        self.calls = raised(self.calls);
        if fails {
            self.faults = raised(self.faults);
            return Err(SourceFault);
        }
        let n = copy_front(buf, &self.bytes[self.read..]);
        self.read += n;
        Ok(n)
    }
}

/// A sink that keeps the bytes that it gets.
#[derive(Drop)]
pub struct MemorySink {
    bytes: Vec<u8>,
    fails: Vec<u64>,
    calls: u64,
    faults: u64,
    starved: bool,
}

impl Model for MemorySink {
    ghost use Rattle.port_model.specs.MemoryStreams.{MemorySinkState};

    ghost Value = { MemorySinkState };

    ghost view = { λ sink. record { written = sink.bytes.items; fails = sink.fails.items; calls = sink.calls; faults = sink.faults; starved = sink.starved } };
}

impl MemorySink {
    /// A sink whose calls with a number in `fails` fail. Calls are numbered from 1.
    pub fn new(alloc: Global, fails: Vec<u64>) -> Result<MemorySink, AllocError>
        ensures { IfOk result (λ sink. sink ≡ record { written = []; fails = fails.items; calls = 0; faults = 0; starved = false }) }
    {
        Ok(MemorySink {
            bytes: Vec::new(alloc),
            fails,
            calls: 0,
            faults: 0,
            starved: false,
        })
    }

    /// The bytes that it got.
    pub fn written(&self) -> &[u8]
        ensures { result.now ≡ self.now.written }
    {
        self.bytes.as_slice()
    }

    /// Whether it ever found no memory.
    pub fn starved(&self) -> bool
        ensures { result ≡ self.now.starved }
    {
        self.starved
    }
}

impl Sink for MemorySink {
    ghost written = { sink_written };

    ghost faults = { sink_faults };

    /// Takes all the bytes.
    fn write(&mut self, bytes: &[u8]) -> Result<usize, SinkFault>
        ensures within { IfOk result (λ n. n ≤ length bytes.now) }
        ensures some { IfOk result (λ n. 0 < length bytes.now → 0 < n) }
        ensures appended { IfOk result (λ n. Appends (take n bytes.now) (sink_written self.old) (sink_written self.new)) }
        ensures cause { OnErr result (Rose (sink_faults self.old) (sink_faults self.new)) }
        ensures quiet { OnOk result (sink_faults self.new ≡ sink_faults self.old) }
        ensures kept { OnErr result (sink_written self.new ≡ sink_written self.old) }
        ensures count { sink_faults self.old ≤ sink_faults self.new }
        ensures fails { OnOk result (fails_after self.old.calls self.old.fails ≡ false) }
        ensures all { IfOk result (λ n. n ≡ length bytes.now) }
        ensures after { self.new ≡ record { written = if is_err result then self.old.written else self.old.written ++ bytes.now; fails = self.old.fails; calls = counted self.old.calls; faults = if is_err result then counted self.old.faults else self.old.faults; starved = self.old.starved || (is_err result && not (fails_after self.old.calls self.old.fails)) } }
    {
        let fails = fails_after(self.calls, &self.fails);
        self.calls = raised(self.calls);
        let starves = !fails && self.bytes.extend_from_slice(bytes).is_err();
        if fails || starves {
            self.starved = self.starved || starves;
            self.faults = raised(self.faults);
            return Err(SinkFault);
        }
        Ok(bytes.len())
    }
}

/// Copies from the front of `bytes` to the front of `buf` as much as fits, and answers how much.
pub(crate) fn copy_front(buf: &mut [u8], bytes: &[u8]) -> usize
    ensures count { result ≡ min (length buf.old) (length bytes.now) }
    ensures copied { take result buf.new ≡ take (length buf.old) bytes.now }
{
    let n = buf.len().min(bytes.len());
    buf[..n].copy_from_slice(&bytes[..n]);
    n
}
