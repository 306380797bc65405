//! Sessions.
ghost use Rattle.std.specs.Prelude.{ℕ, ◌≡◌, ◌+◌, ◌*◌, ◌≤◌, ◌++◌, None, length, vec_capacity, vec_len, IfOk, OnOk, OnErr};
ghost use Rattle.lmtp_core.specs.Replies.{reply_text};
ghost use Rattle.lmtp_core.specs.Session.{begun, command_replied, delivered_reply, recipient_replied, replied, reset as reset_of, text_replied, users_of};
ghost use Rattle.lmtp_core.specs.declared.commands.Command.TheVariants.{Mail};
ghost use Rattle.lmtp_core.specs.declared.session.Next.TheVariants.{Line};

use crate::commands::{Command, read_command};
use crate::replies::Reply;
use std::alloc::{AllocError, Global};
use std::marker::Model;

/// What a session awaits.
#[derive(Clone, Copy, Debug, PartialEq, Eq)]
pub enum Next {
    /// A further line.
    Line,
    /// The text of the mail.
    Text,
    /// Nothing: the link is to be closed.
    Close,
}

/// What became of a mail for one of its recipients.
#[derive(Clone, Copy, Debug, PartialEq, Eq)]
pub enum Delivered {
    Stored,
    MailboxFull,
    /// The text has more bytes than it may have.
    TooLong,
}

/// How many recipients a mail may have.
const RECIPIENT_LIMIT: usize = 100;

/// A session. Contracts see whether an LHLO was taken, and the mail that has a sender, with the users of its recipients.
#[derive(Drop, Debug)]
pub struct LmtpSession {
    greeted: bool,
    in_mail: bool,
    users: Vec<u32>,
}

impl Model for LmtpSession {
    ghost use Rattle.std.specs.Prelude.{◌≤◌, Some, None, length, vec_capacity, if◌then◌else◌};
    ghost use Rattle.lmtp_core.specs.Session.{Session, recipient_limit};

    ghost Value = { Session };

    ghost view = { λ session. record { greeted = session.greeted; mail = if session.in_mail then Some session.users.items else None } };

    ghost invariant = { λ session. (length session.users.items ≤ recipient_limit) × (recipient_limit ≤ vec_capacity session.users) };
}

impl LmtpSession {
    /// A session before its first line. The memory for its recipients is taken here.
    pub fn new(alloc: Global) -> Result<LmtpSession, AllocError>
        ensures { IfOk result (λ session. session ≡ begun) }
    {
        Ok(LmtpSession {
            greeted: false,
            in_mail: false,
            users: Vec::with_capacity(alloc, RECIPIENT_LIMIT)?,
        })
    }

    /// The users of the recipients that were accepted, each as often as it was named.
    pub fn users(&self) -> &[u32]
        ensures { result.now ≡ users_of self.now.mail }
    {
        if self.in_mail {
            self.users.as_slice()
        } else {
            &[]
        }
    }

    /// Answers a line, which is a unit with its CRLF, and tells what is awaited then. `known` is the id of the user whom
    /// the line asks for (`asked`), if there is one; lines that ask for none don't look at it.
    ///
    /// Where there is no memory for the answer, the session and the output are as they were.
    pub fn line(
        &mut self,
        line: &[u8],
        known: Option<u32>,
        out: &mut Vec<u8>,
    ) -> Result<Next, AllocError>
        ensures next { IfOk result (λ next. next ≡ (replied self.old line.now known).next) }
        ensures after { OnOk result (self.new ≡ (replied self.old line.now known).after) }
        ensures reply { OnOk result (out.new.items ≡ out.old.items ++ reply_text (replied self.old line.now known).reply) }
        ensures unchanged { OnErr result ((self.new ≡ self.old) × (out.new.items ≡ out.old.items)) }
    {
        out.reserve(REPLY_BYTES)?;
        let answer = self.answer(read_command(line), known);
        push_reply(out, answer.reply);
        Ok(answer.next)
    }

    /// Answers a command.
    fn answer(&mut self, command: Command, known: Option<u32>) -> Answered
        ensures reply { result.reply ≡ (command_replied self.old command known).reply }
        ensures next { result.next ≡ (command_replied self.old command known).next }
        ensures after { self.new ≡ (command_replied self.old command known).after }
    {
        match command {
            Command::Lhlo => {
                self.greeted = true;
                self.in_mail = false;
                Answered::line(Reply::Extensions)
            }
            Command::Mail => Answered::line(self.begin_mail()),
            Command::Rcpt => Answered::line(self.add_recipient(known)),
            Command::Data => {
                if self.users().is_empty() {
                    Answered::line(Reply::BadSequence)
                } else {
                    Answered {
                        reply: Reply::GoAhead,
                        next: Next::Text,
                    }
                }
            }
            Command::Rset => {
                self.in_mail = false;
                Answered::line(Reply::Done)
            }
            Command::Noop => Answered::line(Reply::Done),
            Command::Vrfy => Answered::line(Reply::CannotVerify),
            Command::Quit => Answered {
                reply: Reply::Bye,
                next: Next::Close,
            },
            Command::OtherForm => Answered::line(Reply::Syntax),
            Command::Unknown => Answered::line(Reply::UnknownCommand),
        }
    }

    fn begin_mail(&mut self) -> Reply
        ensures reply { result ≡ (command_replied self.old Mail None).reply }
        ensures after { self.new ≡ (command_replied self.old Mail None).after }
    {
        if !self.greeted || self.in_mail {
            return Reply::BadSequence;
        }
        self.users.clear();
        self.in_mail = true;
        Reply::SenderOk
    }

    fn add_recipient(&mut self, known: Option<u32>) -> Reply
        ensures reply { result ≡ (recipient_replied self.old self.old.mail known).reply }
        ensures after { self.new ≡ (recipient_replied self.old self.old.mail known).after }
    {
        if !self.in_mail {
            return Reply::BadSequence;
        }
        if self.users.len() >= RECIPIENT_LIMIT {
            return Reply::TooManyRecipients;
        }
        match known {
            None => Reply::NoSuchUser,
            Some(user) => {
                match self.users.push(user) {
                    Ok(()) => {}
                    Err(_) => unreachable!(),
                }
                Reply::RecipientOk
            }
        }
    }

    /// Answers a text, by what became of it for each recipient (`users`), in their order. The mail is then over.
    ///
    /// Where there is no memory for the answer, the session and the output are as they were.
    pub fn stored(&mut self, answers: &[Delivered], out: &mut Vec<u8>) -> Result<(), AllocError>
        requires { length answers.now ≡ length (users_of self.old.mail) }
        ensures after { OnOk result (self.new ≡ reset_of self.old) }
        ensures reply { OnOk result (out.new.items ≡ out.old.items ++ text_replied answers.now) }
        ensures unchanged { OnErr result ((self.new ≡ self.old) × (out.new.items ≡ out.old.items)) }
    {
        out.reserve(self.users().len() * REPLY_BYTES)?;
        push_answers(out, answers);
        self.in_mail = false;
        Ok(())
    }
}

/// What a command is answered.
#[derive(Clone, Copy)]
struct Answered {
    reply: Reply,
    next: Next,
}

impl Answered {
    /// With it a further line is awaited.
    fn line(reply: Reply) -> Answered
        ensures { result ≡ record { reply = reply; next = Line } }
    {
        Answered {
            reply,
            next: Next::Line,
        }
    }
}

/// How many bytes a reply has at most.
const REPLY_BYTES: usize = 80;

/// Adds a reply, for which there is room.
fn push_reply(out: &mut Vec<u8>, reply: Reply)
    requires { vec_len out.old + 80 ≤ vec_capacity out.old }
    ensures items { out.new.items ≡ out.old.items ++ reply_text reply }
    ensures room { (more : ℕ) → vec_len out.old + (80 + more) ≤ vec_capacity out.old → vec_len out.new + more ≤ vec_capacity out.new }
{
    match out.extend_from_slice(reply.text()) {
        Ok(()) => {}
        Err(_) => unreachable!(),
    }
}

fn reply_of(delivered: Delivered) -> Reply
    ensures { result ≡ delivered_reply delivered }
{
    match delivered {
        Delivered::Stored => Reply::Stored,
        Delivered::MailboxFull => Reply::MailboxFull,
        Delivered::TooLong => Reply::MessageTooLong,
    }
}

/// Adds a reply for each answer, for which there is room.
fn push_answers(out: &mut Vec<u8>, answers: &[Delivered])
    requires { vec_len out.old + length answers.now * 80 ≤ vec_capacity out.old }
    ensures { out.new.items ≡ out.old.items ++ text_replied answers.now }
{
    'answers: for answer in answers {
        push_reply(out, reply_of(*answer));
    }
}
