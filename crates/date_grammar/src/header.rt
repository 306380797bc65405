//! The dates of header fields.
ghost use Rattle.std.specs.Prelude.{◌≡◌};
ghost use Rattle.date_grammar.specs.Dates.{sent_date};

use crate::printing::sent;
use crate::reading::header_date;
use mime_tree::SentDate;

/// The date that the value of a field is, and its print. None where it is none (RFC 5322 §3.3, §4.3).
///
/// The value has no line ends. The name of the day isn't compared with the date.
#[tactic(auto, unfolding(crate::specs::Dates::sent_date))]
pub fn read_date(value: &[u8]) -> Option<SentDate>
    ensures { result ≡ sent_date value.now }
{
    let date = header_date(value)?;
    Some(sent(date))
}
