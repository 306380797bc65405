//! What was sent by each link.

ghost use Rattle.std.specs.Prelude.{◌≡◌, OnOk};
ghost use Rattle.std.specs.Ordering.{nat_cmp};
ghost use Rattle.port_model.specs.SentTexts.{text_at, Adds};

use std::alloc::{AllocError, Global};
use std::collections::BTreeMap;

/// The text of each link that sent, by its number.
pub(crate) type SentTexts = BTreeMap<u32, Vec<u8>>;

/// Adds bytes to the text of a link.
pub(crate) fn add_sent(
    alloc: Global,
    texts: &mut SentTexts,
    number: u32,
    bytes: &[u8],
) -> Result<(), AllocError>
    ensures { OnOk result (Adds bytes.now number (text_at texts.old) (text_at texts.new)) }
{
    match texts.get_mut(&number) {
        Some(text) => text.extend_from_slice(bytes)?,
        None => {
            texts.insert(number, Vec::from_slice(alloc, bytes)?)?;
        }
    }
    Ok(())
}

/// The text of a link, empty where it sent nothing.
pub(crate) fn sent_text(texts: &SentTexts, number: u32) -> &[u8]
    ensures { result.now ≡ text_at texts.now number }
{
    match texts.get(&number) {
        Some(text) => text.as_slice(),
        None => &[],
    }
}
