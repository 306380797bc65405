//! What holds of encoded bodies.
ghost use Rattle.transfer_codec.specs.Laws.{Base64Laws, QuotedLaws};

use mail_text::law_lines;

/// A text decodes to bytes exactly where it is their base64, bytes that are printed are read again, and no line of the print
/// is longer than 76 letters or could be taken for a delimiter.
pub fn law_base64()
    ensures { Base64Laws }
{
    law_lines();
}

/// Quoted-printable from the left: escapes, lines and their ends.
pub fn law_quoted()
    ensures { QuotedLaws }
{}
