//! How large messages are, for the proofs of the crates above.
ghost use Rattle.mime_reader.specs.Weights.{SizeLaws};

use address_grammar::law_weights;
use header_reader::law_fields;
use mail_text::law_lines;

/// A message that was read is no larger than a few times its text, and a wrapper no larger than a little more than its bytes.
pub fn law_sizes()
    ensures { SizeLaws }
{
    law_lines();
    law_weights();
    law_fields();
}
