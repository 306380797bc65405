//! Ports that nothing comes by.

ghost use Rattle.std.specs.Prelude.{None};

use port_model::{Kind, ListenFault, PortRead, PortSend, Ports};

/// Ports that nobody links to. Any history may be theirs.
#[derive(Drop)]
pub(crate) struct NoPorts {}

impl Ports for NoPorts {
    ghost history = { λ _ _. Unit {0} };

    ghost listen_faults = { λ _. 0 };

    ghost link_faults = { λ _ _. 0 };

    ghost plan = { λ _. None };

    fn accept(&mut self, _number: u32) -> Result<Option<Kind>, ListenFault> {
        Ok(None)
    }

    fn read(&mut self, _number: u32, _buf: &mut [u8]) -> PortRead {
        PortRead::Quiet
    }

    fn now(&mut self) -> u64 {
        0
    }

    fn send(&mut self, _number: u32, _bytes: &[u8]) -> PortSend {
        PortSend::Took(0)
    }

    fn close(&mut self, _number: u32) {}
}
