// Lists of changes.
ghost use Rattle.std.specs.Prelude.{◌≡◌, List, IfOk, IfSome, IfNone};
ghost use Rattle.row_tables.specs.declared.change.RowChange.{RowChange};
ghost use Rattle.row_tables.specs.TableRows.{TableRows};
ghost use Rattle.row_tables.specs.Fits.{Runs};
ghost use Rattle.row_codec.specs.Encoding.{HaveTexts, HaveWidths, encoding};

use crate::changes::{read_change, write_change};
use row_tables::RowChange;
use std::alloc::{AllocError, Global};

/// The bytes of the changes, one after another: a byte for the table, a byte for the operation, and the columns. Numbers
/// are big-endian; a text has its length in four bytes in front. An error is want of memory.
pub fn encode(alloc: Global, changes: &[RowChange]) -> Result<Vec<u8>, AllocError>
    requires { HaveTexts changes.now }
    ensures bytes { IfOk result (λ bytes. bytes.items ≡ encoding changes.now) }
    ensures widths { IfOk result (λ _. HaveWidths changes.now) }
{
    let mut out = Vec::new(alloc);
    for change in changes {
        write_change(change, &mut out)?;
    }
    Ok(out)
}

/// The changes that the bytes are the encoding of, or `None` where there are none such. Texts are copied once; a length
/// that goes past the end takes no memory. An error is want of memory.
pub fn decode(alloc: Global, bytes: &[u8]) -> Result<Option<Vec<RowChange>>, AllocError>
    ensures some { IfOk result (λ found. IfSome found (λ changes. bytes.now ≡ encoding changes.items)) }
    ensures fits { IfOk result (λ found. IfSome found (λ changes. HaveTexts changes.items × HaveWidths changes.items)) }
    ensures none { IfOk result (λ found. IfNone found ((changes : List RowChange) → HaveTexts changes → HaveWidths changes
        → bytes.now ≡ encoding changes → ⊥)) }
{
    let mut changes = Vec::new(alloc);
    let mut rest = bytes;
    while !rest.is_empty() {
        let Some((change, after)) = read_change(alloc, rest)? else {
            return Ok(None);
        };
        changes.push(change)?;
        rest = after;
    }
    Ok(Some(changes))
}

/// Two lists of changes with one encoding are the same list.
pub fn encodings_differ()
    ensures { (changes others : List RowChange) → HaveTexts changes → HaveWidths changes → HaveTexts others → HaveWidths others
        → encoding changes ≡ encoding others → changes ≡ others }
{}

/// Changes that fit one after another have no text that is too long for its length.
pub fn fitting_texts_have_lengths()
    ensures { (tables after : TableRows) (changes : List RowChange) → Runs tables changes after → HaveTexts changes }
{}
