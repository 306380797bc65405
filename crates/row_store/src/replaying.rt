//! Making the changes of payloads again.

ghost use Rattle.std.specs.Prelude.{◌≡◌, List, ℕ, IfOk, IfSome, IfNone, true, false};
ghost use Rattle.row_tables.specs.TableRows.{TableRows, no_rows};
ghost use Rattle.row_tables.specs.declared.change.RowChange.{RowChange};
ghost use Rattle.row_tables.specs.Fits.{CanRun, Runs};
ghost use Rattle.row_codec.specs.Encoding.{HaveWidths, encoding};
ghost use Rattle.row_store.specs.Holding.{Replays};

use octets::Octets;
use row_codec::{decode, encodings_differ, fitting_texts_have_lengths};
use row_tables::laws::changes_have_one_end;
use row_tables::{RowChange, Tables};
use std::alloc::{AllocError, Global};

// Makes changes as long as they fit, and says whether all did.
fn run(tables: &mut Tables, changes: Vec<RowChange>) -> Result<bool, AllocError>
    ensures all { IfOk result (λ fit. fit ≡ true → Runs tables.old changes.items tables.new) }
    ensures not_all { IfOk result (λ fit. fit ≡ false → CanRun tables.old changes.items → ⊥) }
{
    for change in changes {
        if !tables.fits(&change) {
            return Ok(false);
        }
        tables.apply(change)?;
    }
    Ok(true)
}

// Makes the changes of a payload, and says whether it is changes which fit one after another.
fn replay(alloc: Global, tables: &mut Tables, payload: &[u8]) -> Result<bool, AllocError>
    ensures all { IfOk result (λ fit. fit ≡ true → (changes : List RowChange) × HaveWidths changes × (payload.now ≡ encoding changes)
        × Runs tables.old changes tables.new) }
    ensures not_all { IfOk result (λ fit. fit ≡ false → (changes : List RowChange) → HaveWidths changes → payload.now ≡ encoding changes
        → CanRun tables.old changes → ⊥) }
{
    encodings_differ();
    fitting_texts_have_lengths();
    match decode(alloc, payload)? {
        Some(changes) => run(tables, changes),
        None => Ok(false),
    }
}

// The tables that payloads make, if they are changes which fit one after another.
pub(crate) fn replayed(alloc: Global, payloads: Vec<Octets>) -> Result<Option<Tables>, AllocError>
    ensures some { IfOk result (λ found. IfSome found (λ tables. Replays no_rows payloads.items tables)) }
    ensures none { IfOk result (λ found. IfNone found ((after : TableRows) → Replays no_rows payloads.items after → ⊥)) }
{
    changes_have_one_end();
    encodings_differ();
    fitting_texts_have_lengths();
    let mut tables = Tables::new(alloc);
    for payload in payloads {
        if !replay(alloc, &mut tables, payload.as_slice())? {
            return Ok(None);
        }
    }
    Ok(Some(tables))
}
