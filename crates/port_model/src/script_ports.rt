//! Ports that play a script.

ghost use Rattle.std.specs.Prelude.{◌≡◌, ◌↔◌, ◌<◌, true, false, [], All, IfOk, OnOk, IsErr, IsTrue, is_err, length};
ghost use Rattle.fault_counts.specs.Rose.{Rose};
ghost use Rattle.port_model.specs.declared.calls.PortCall.TheVariants.{Accept, Read, Now, Send, Close};
ghost use Rattle.port_model.specs.declared.calls.PortRead.TheVariants.{Lost as ReadLost};
ghost use Rattle.port_model.specs.declared.calls.PortSend.TheVariants.{Lost as SendLost};
ghost use Rattle.port_model.specs.Ports.{Records, NeverFall, answer_of_read, ReadsWithin, TakesWithin};
ghost use Rattle.port_model.specs.Playing.{IsAnswered, IsPlayed, playing};
ghost use Rattle.port_model.specs.History.{sent};
ghost use Rattle.port_model.specs.Player.{HasBytes};
ghost use Rattle.port_model.specs.ScriptPorts.{Scripted, script_history, its_plan, listen_count, link_count};

use crate::call_record::CallRecord;
use crate::calls::{Kind, ListenFault, PortRead, PortSend};
use crate::events::Event;
use crate::player::Player;
use crate::ports::Ports;
use crate::sent_texts::{SentTexts, add_sent, sent_text};
use fault_counts::raised;
use std::alloc::{AllocError, Global};
use std::collections::BTreeMap;
use std::marker::Model;

/// Ports that answer as a script has it, and record the calls on them.
///
/// A call takes 32 bytes of memory for its record, and one byte for each byte that it read or was offered to send; a
/// byte that a send took is kept once more, for `sent`. All stand in lists that grow by doubling. A call takes O(log n)
/// time in the number of links, beside the bytes that it moves; the events of a closed link are skipped once each.
#[derive(Drop)]
pub struct ScriptPorts {
    alloc: Global,
    player: Player,
    calls: CallRecord,
    texts: SentTexts,
    starved: bool,
    starved_accepts: u64,
    starved_calls: u64,
}

impl Model for ScriptPorts {
    ghost use Rattle.std.specs.Prelude.{◌≡◌, false};
    ghost use Rattle.port_model.specs.SentTexts.{text_at};
    ghost use Rattle.port_model.specs.ScriptPorts.{Scripted, IsFollowed};

    ghost Value = { Scripted };

    ghost view = { λ ports. record { plan = ports.player.plan; calls = ports.calls; starved = ports.starved; starved_accepts = ports.starved_accepts; starved_calls = ports.starved_calls } };

    ghost invariant = { λ ports. ports.starved ≡ false → IsFollowed ports.player ports.calls (text_at ports.texts) };
}

impl ScriptPorts {
    /// Ports that play these events, each piece of which has one byte at least. Each send takes one of these numbers
    /// of bytes at most, in order, and all that it is offered behind the last.
    pub fn new(
        alloc: Global,
        events: Vec<Event>,
        sends: Vec<usize>,
    ) -> Result<ScriptPorts, AllocError>
        requires { All HasBytes events.items }
        ensures { IfOk result (λ ports. ports ≡ record { plan = record { events = events.items; sends = sends.items }; calls = []; starved = false; starved_accepts = 0; starved_calls = 0 }) }
    {
        Ok(ScriptPorts {
            alloc,
            player: Player::new(alloc, events, sends),
            calls: CallRecord::new(alloc),
            texts: BTreeMap::new(alloc),
            starved: false,
            starved_accepts: 0,
            starved_calls: 0,
        })
    }

    /// Whether no event of the script is left.
    pub fn done(&self) -> bool
        ensures left { self.now.starved ≡ false → (IsTrue result ↔ ((playing self.now.plan self.now.calls).left ≡ [])) }
        ensures answers { self.now.starved ≡ false → IsPlayed self.now.plan self.now.calls }
    {
        self.player.is_done()
    }

    /// Whether the record of a call ever found no memory.
    pub fn starved(&self) -> bool
        ensures starved { result ≡ self.now.starved }
        ensures answers { self.now.starved ≡ false → IsPlayed self.now.plan self.now.calls }
    {
        self.starved
    }

    /// What was sent by the link of a number, whether or not a link was accepted under it.
    pub fn sent(&self, number: u32) -> &[u8]
        ensures { self.now.starved ≡ false → result.now ≡ sent self.now.calls number }
    {
        sent_text(&self.texts, number)
    }
}

impl Ports for ScriptPorts {
    ghost history = { script_history };

    ghost listen_faults = { listen_count };

    ghost link_faults = { link_count };

    ghost plan = { its_plan };

    fn accept(&mut self, number: u32) -> Result<Option<Kind>, ListenFault>
        ensures history { Records (Accept number result) (script_history self.old) (script_history self.new) }
        ensures cause { IsErr result → Rose (listen_count self.old) (listen_count self.new) }
        ensures counts { NeverFall (listen_count self.old) (link_count self.old) (listen_count self.new) (link_count self.new) }
        ensures quiet { OnOk result (listen_count self.new ≡ listen_count self.old) }
        ensures plan { its_plan self.new ≡ its_plan self.old }
        ensures starved { is_err result ≡ self.new.starved }
        ensures answered { self.new.starved ≡ false → IsAnswered (Accept number result) (playing self.old.plan self.old.calls) }
    {
        let answer = Ok(self.player.accept(number));
        if self.starved || self.calls.accept(number, answer).is_err() {
            self.starved = true;
            self.starved_accepts = raised(self.starved_accepts);
            return Err(ListenFault);
        }
        answer
    }

    fn read(&mut self, number: u32, buf: &mut [u8]) -> PortRead
        requires { 0 < length buf.old }
        ensures history { Records (Read number (length buf.old) (answer_of_read result buf.new)) (script_history self.old) (script_history self.new) }
        ensures within { ReadsWithin (length buf.old) result }
        ensures cause { result ≡ ReadLost → Rose (link_count self.old number) (link_count self.new number) }
        ensures counts { NeverFall (listen_count self.old) (link_count self.old) (listen_count self.new) (link_count self.new) }
        ensures quiet { listen_count self.new ≡ listen_count self.old }
        ensures plan { its_plan self.new ≡ its_plan self.old }
        ensures starved { self.new.starved ≡ true → result ≡ ReadLost }
        ensures answered { self.new.starved ≡ false → IsAnswered (Read number (length buf.old) (answer_of_read result buf.new)) (playing self.old.plan self.old.calls) }
    {
        let answer = self.player.read(number, buf);
        if self.starved || self.calls.read(number, buf, answer).is_err() {
            self.starved = true;
            self.starved_calls = raised(self.starved_calls);
            return PortRead::Lost;
        }
        answer
    }

    fn now(&mut self) -> u64
        ensures history { Records (Now result) (script_history self.old) (script_history self.new) }
        ensures counts { NeverFall (listen_count self.old) (link_count self.old) (listen_count self.new) (link_count self.new) }
        ensures quiet { listen_count self.new ≡ listen_count self.old }
        ensures plan { its_plan self.new ≡ its_plan self.old }
        ensures answered { self.new.starved ≡ false → IsAnswered (Now result) (playing self.old.plan self.old.calls) }
    {
        let reading = self.player.now();
        if self.starved || self.calls.now(reading).is_err() {
            self.starved = true;
            self.starved_calls = raised(self.starved_calls);
        }
        reading
    }

    fn send(&mut self, number: u32, bytes: &[u8]) -> PortSend
        ensures history { Records (Send number bytes.now result) (script_history self.old) (script_history self.new) }
        ensures within { TakesWithin (length bytes.now) result }
        ensures cause { result ≡ SendLost → Rose (link_count self.old number) (link_count self.new number) }
        ensures counts { NeverFall (listen_count self.old) (link_count self.old) (listen_count self.new) (link_count self.new) }
        ensures quiet { listen_count self.new ≡ listen_count self.old }
        ensures plan { its_plan self.new ≡ its_plan self.old }
        ensures starved { self.new.starved ≡ true → result ≡ SendLost }
        ensures answered { self.new.starved ≡ false → IsAnswered (Send number bytes.now result) (playing self.old.plan self.old.calls) }
    {
        let answer = self.player.send(number, bytes);
        let taken = match answer {
            PortSend::Took(n) => n,
            PortSend::Lost => 0,
        };
        if self.starved
            || add_sent(self.alloc, &mut self.texts, number, &bytes[..taken]).is_err()
            || self.calls.send(number, bytes, answer).is_err()
        {
            self.starved = true;
            self.starved_calls = raised(self.starved_calls);
            return PortSend::Lost;
        }
        answer
    }

    fn close(&mut self, number: u32) {
        if self.starved || self.player.close(number).is_err() || self.calls.close(number).is_err() {
            self.starved = true;
            self.starved_calls = raised(self.starved_calls);
        }
    }
}
