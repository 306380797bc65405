//! LMTP (RFC 2033), by which a transfer agent hands mail over: what a peer's bytes are cut into, and what a session
//! answers. Who the users are and where mail is stored is the caller's.
//!
//! A session awaits lines, and after DATA a text. For each line (`LineLexer`) the caller looks up the user whom it asks for
//! (`asked`), has the session answer it (`LmtpSession::line`) and sends the answer. A text (`TextLexer`) is delivered to
//! the users of the session (`LmtpSession::users`), and answered for each of them (`LmtpSession::stored`).
#![tactic(auto)]

mod commands;
mod kept;
mod laws;
mod lines;
mod reading;
mod replies;
mod session;

pub use commands::{Command, asked, read_command};
pub use laws::{
    lines_end_where_they_end, recipients_are_asked_as_written, texts_are_read_as_sent,
    texts_are_read_whole,
};
pub use lines::{LineLexer, LineShown};
pub use reading::TextLexer;
pub use replies::Reply;
pub use session::{Delivered, LmtpSession, Next};
