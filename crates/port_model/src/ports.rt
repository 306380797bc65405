//! The links to peers.

ghost use Rattle.std.specs.Prelude.{ℕ, ◌≡◌, ◌<◌, List, Option, IsErr, OnOk, length};
ghost use Rattle.fault_counts.specs.Rose.{Rose};
ghost use Rattle.port_model.specs.declared.calls.PortCall.{PortCall};
ghost use Rattle.port_model.specs.declared.calls.PortCall.TheVariants.{Accept, Read, Now, Send, Close};
ghost use Rattle.port_model.specs.declared.calls.PortRead.TheVariants.{Lost as ReadLost};
ghost use Rattle.port_model.specs.declared.calls.PortSend.TheVariants.{Lost as SendLost};
ghost use Rattle.port_model.specs.Ports.{Records, NeverFall, answer_of_read, ReadsWithin, TakesWithin};
ghost use Rattle.port_model.specs.Playing.{Plan};

use crate::calls::{Kind, ListenFault, PortRead, PortSend};

/// The links to peers, each under a number that its user gives it.
pub trait Ports {
    /// Which calls with their answers, the newest first, may be those that were made. Where ports tell none, they may be any.
    ghost history: { Self → List PortCall → Type 0 };

    /// How often listening failed. It never falls, and stays at `u64::MAX` once it is there. A call that asks for no link
    /// leaves it as it is, and so does one that gets an answer.
    ghost listen_faults: { Self → ℕ };

    /// How often the link of a number failed. It never falls, and stays at `u64::MAX` once it is there.
    ghost link_faults: { Self → ℕ → ℕ };

    /// What the ports play, where they play a script. No call changes it.
    ghost plan: { Self → Option Plan };

    /// Takes a new link, if one came; it has this number from then on.
    fn accept(&mut self, number: u32) -> Result<Option<Kind>, ListenFault>
        ensures history { Records (Accept number result) (history self.old) (history self.new) }
        ensures cause { IsErr result → Rose (listen_faults self.old) (listen_faults self.new) }
        ensures counts { NeverFall (listen_faults self.old) (link_faults self.old) (listen_faults self.new) (link_faults self.new) }
        ensures quiet { OnOk result (listen_faults self.new ≡ listen_faults self.old) }
        ensures plan { plan self.new ≡ plan self.old };

    /// Reads what came by a link, if anything did.
    fn read(&mut self, number: u32, buf: &mut [u8]) -> PortRead
        requires { 0 < length buf.old }
        ensures history { Records (Read number (length buf.old) (answer_of_read result buf.new)) (history self.old) (history self.new) }
        ensures within { ReadsWithin (length buf.old) result }
        ensures cause { result ≡ ReadLost → Rose (link_faults self.old number) (link_faults self.new number) }
        ensures counts { NeverFall (listen_faults self.old) (link_faults self.old) (listen_faults self.new) (link_faults self.new) }
        ensures quiet { listen_faults self.new ≡ listen_faults self.old }
        ensures plan { plan self.new ≡ plan self.old };

    /// The seconds since 1970.
    fn now(&mut self) -> u64
        ensures history { Records (Now result) (history self.old) (history self.new) }
        ensures counts { NeverFall (listen_faults self.old) (link_faults self.old) (listen_faults self.new) (link_faults self.new) }
        ensures quiet { listen_faults self.new ≡ listen_faults self.old }
        ensures plan { plan self.new ≡ plan self.old };

    /// Offers bytes to a link, which takes as many from their front as it can without waiting.
    fn send(&mut self, number: u32, bytes: &[u8]) -> PortSend
        ensures history { Records (Send number bytes.now result) (history self.old) (history self.new) }
        ensures within { TakesWithin (length bytes.now) result }
        ensures cause { result ≡ SendLost → Rose (link_faults self.old number) (link_faults self.new number) }
        ensures counts { NeverFall (listen_faults self.old) (link_faults self.old) (listen_faults self.new) (link_faults self.new) }
        ensures quiet { listen_faults self.new ≡ listen_faults self.old }
        ensures plan { plan self.new ≡ plan self.old };

    /// Closes a link.
    fn close(&mut self, number: u32)
        ensures history { Records (Close number) (history self.old) (history self.new) }
        ensures counts { NeverFall (listen_faults self.old) (link_faults self.old) (listen_faults self.new) (link_faults self.new) }
        ensures quiet { listen_faults self.new ≡ listen_faults self.old }
        ensures plan { plan self.new ≡ plan self.old };
}
