//! The calls on ports that play a script, as they are kept.

ghost use Rattle.std.specs.Prelude.{◌≡◌, [], ◌∷◌, length, OnOk, OnErr};
ghost use Rattle.port_model.specs.declared.calls.PortCall.TheVariants.{Accept, Read, Now, Send, Close};
ghost use Rattle.port_model.specs.Ports.{answer_of_read, ReadsWithin};
ghost use Rattle.port_model.specs.CallRecord.{call_of, text_len};

use crate::calls::{Kind, ListenFault, PortRead, PortSend};
use std::alloc::{AllocError, Global};
use std::marker::Model;

/// A call and its answer, but for the bytes that it moved.
#[derive(Clone, Copy)]
pub(crate) enum KeptCall {
    Accept {
        number: u32,
        answer: Result<Option<Kind>, ListenFault>,
    },
    // With `Bytes(n)` for an answer the call has `n` bytes in the text.
    Read {
        number: u32,
        room: usize,
        answer: PortRead,
    },
    Now(u64),
    // The call has all the bytes that were offered in the text.
    Send {
        number: u32,
        offered: usize,
        answer: PortSend,
    },
    Close(u32),
}

const _: () = prove!(size_of::<KeptCall>() <= 32);

/// Calls with their answers. Contracts see the newest first.
#[derive(Drop)]
pub(crate) struct CallRecord {
    calls: Vec<KeptCall>,
    // What the calls moved, one after another.
    text: Vec<u8>,
}

impl Model for CallRecord {
    ghost use Rattle.std.specs.Prelude.{◌≡◌, List, [], length};
    ghost use Rattle.port_model.specs.declared.calls.PortCall.{PortCall};
    ghost use Rattle.port_model.specs.CallRecord.{calls_of, whole_len};

    ghost Value = { List PortCall };

    ghost view = { λ kept. calls_of kept.calls.items kept.text.items [] };

    ghost invariant = { λ kept. length kept.text.items ≡ whole_len kept.calls.items };
}

impl CallRecord {
    pub(crate) fn new(alloc: Global) -> CallRecord
        ensures { result ≡ [] }
    {
        CallRecord {
            calls: Vec::new(alloc),
            text: Vec::new(alloc),
        }
    }

    pub(crate) fn accept(
        &mut self,
        number: u32,
        answer: Result<Option<Kind>, ListenFault>,
    ) -> Result<(), AllocError>
        ensures kept { OnOk result (self.new ≡ Accept number answer ∷ self.old) }
        ensures err { OnErr result (self.new ≡ self.old) }
    {
        self.push(KeptCall::Accept { number, answer }, &[])
    }

    /// Keeps a read into `buf`, which has what was given at its front.
    pub(crate) fn read(
        &mut self,
        number: u32,
        buf: &[u8],
        answer: PortRead,
    ) -> Result<(), AllocError>
        requires { ReadsWithin (length buf.now) answer }
        ensures kept { OnOk result (self.new ≡ Read number (length buf.now) (answer_of_read answer buf.now) ∷ self.old) }
        ensures err { OnErr result (self.new ≡ self.old) }
    {
        let room = buf.len();
        let given = match answer {
            PortRead::Bytes(n) => n,
            PortRead::Quiet | PortRead::Ended | PortRead::Lost => 0,
        };
        self.push(
            KeptCall::Read {
                number,
                room,
                answer,
            },
            &buf[..given],
        )
    }

    pub(crate) fn now(&mut self, reading: u64) -> Result<(), AllocError>
        ensures kept { OnOk result (self.new ≡ Now reading ∷ self.old) }
        ensures err { OnErr result (self.new ≡ self.old) }
    {
        self.push(KeptCall::Now(reading), &[])
    }

    pub(crate) fn send(
        &mut self,
        number: u32,
        bytes: &[u8],
        answer: PortSend,
    ) -> Result<(), AllocError>
        ensures kept { OnOk result (self.new ≡ Send number bytes.now answer ∷ self.old) }
        ensures err { OnErr result (self.new ≡ self.old) }
    {
        let offered = bytes.len();
        self.push(
            KeptCall::Send {
                number,
                offered,
                answer,
            },
            bytes,
        )
    }

    pub(crate) fn close(&mut self, number: u32) -> Result<(), AllocError>
        ensures kept { OnOk result (self.new ≡ Close number ∷ self.old) }
        ensures err { OnErr result (self.new ≡ self.old) }
    {
        self.push(KeptCall::Close(number), &[])
    }

    fn push(&mut self, call: KeptCall, bytes: &[u8]) -> Result<(), AllocError>
        requires { length bytes.now ≡ text_len call }
        ensures kept { OnOk result (self.new ≡ call_of call bytes.now ∷ self.old) }
        ensures err { OnErr result (self.new ≡ self.old) }
    {
        let before = self.text.len();
        self.text.extend_from_slice(bytes)?;
        match self.calls.push(call) {
            Ok(()) => Ok(()),
            Err(_) => {
                self.text.truncate(before);
                Err(AllocError)
            }
        }
    }
}
