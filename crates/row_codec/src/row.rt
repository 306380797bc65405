// Rows and keys by their columns.
ghost use Rattle.std.specs.Prelude.{◌≡◌, ◌++◌, ◌∷◌, List, ℕ, OnOk, IfOk};
ghost use Rattle.row_codec.specs.Codec.{Codec, Reads, mapped};
ghost use Rattle.row_tables.specs.declared.change.RowChange.{RowChange};

use crate::column::Column;
use row_tables::RowChange;
use std::alloc::{AllocError, Global};

// A row or a key, as the pairs of its columns in their order.
pub(crate) trait Spread: Drop {
    type Columns: Column;

    ghost parts: { Self → Self.Columns };

    ghost whole: { Self.Columns → Self };

    fn write_columns(&self, out: &mut Vec<u8>) -> Result<(), AllocError>
        requires { Self.Columns.codec.column.HasTexts (parts self.now) }
        ensures written { OnOk result (out.new.items ≡ out.old.items ++ Self.Columns.codec.column.bytes (parts self.now)) }
        ensures widths { OnOk result (Self.Columns.codec.column.HasWidths (parts self.now)) };

    fn of(columns: Self::Columns) -> Self
        ensures { result ≡ whole columns };
}

// A row of a table, and the changes of it.
pub(crate) trait Row: Spread {
    type Key: Spread;

    ghost insertion: { Self → RowChange };

    ghost update: { Self → RowChange };

    ghost removal: { Self.Key → RowChange };

    fn insertion(self) -> RowChange
        ensures { result ≡ insertion self };

    fn update(self) -> RowChange
        ensures { result ≡ update self };

    fn removal(key: Self::Key) -> RowChange
        ensures { result ≡ removal key };
}

// What is at the front, and what follows it.
fn read<S: Spread>(alloc: Global, bytes: &[u8]) -> Result<Option<(S, &[u8])>, AllocError>
    ensures { IfOk result (λ found. Reads (λ p. (p.0, p.1.now)) found (mapped S.whole (S.Columns.codec.read bytes.now))) }
{
    match S::Columns::read_from(alloc, bytes)? {
        Some((columns, rest)) => Ok(Some((S::of(columns), rest))),
        None => Ok(None),
    }
}

pub(crate) fn read_insertion<R: Row>(
    alloc: Global,
    bytes: &[u8],
) -> Result<Option<(RowChange, &[u8])>, AllocError>
    ensures { IfOk result (λ found. Reads (λ p. (p.0, p.1.now)) found (mapped R.insertion (mapped R.whole (R.Columns.codec.read bytes.now)))) }
{
    match read::<R>(alloc, bytes)? {
        Some((row, rest)) => Ok(Some((row.insertion(), rest))),
        None => Ok(None),
    }
}

pub(crate) fn read_update<R: Row>(
    alloc: Global,
    bytes: &[u8],
) -> Result<Option<(RowChange, &[u8])>, AllocError>
    ensures { IfOk result (λ found. Reads (λ p. (p.0, p.1.now)) found (mapped R.update (mapped R.whole (R.Columns.codec.read bytes.now)))) }
{
    match read::<R>(alloc, bytes)? {
        Some((row, rest)) => Ok(Some((row.update(), rest))),
        None => Ok(None),
    }
}

pub(crate) fn read_removal<R: Row>(
    alloc: Global,
    bytes: &[u8],
) -> Result<Option<(RowChange, &[u8])>, AllocError>
    ensures { IfOk result (λ found. Reads (λ p. (p.0, p.1.now)) found (mapped R.removal (mapped R.Key.whole (R.Key.Columns.codec.read bytes.now)))) }
{
    match read::<R::Key>(alloc, bytes)? {
        Some((key, rest)) => Ok(Some((R::removal(key), rest))),
        None => Ok(None),
    }
}

// Writes a change: its table, its operation, and a row or a key.
pub(crate) fn write<S: Spread>(
    table: u8,
    operation: u8,
    value: &S,
    out: &mut Vec<u8>,
) -> Result<(), AllocError>
    requires { S.Columns.codec.column.HasTexts (S.parts value.now) }
    ensures written { OnOk result (out.new.items ≡ out.old.items ++ table ∷ operation ∷ S.Columns.codec.column.bytes (S.parts value.now)) }
    ensures widths { OnOk result (S.Columns.codec.column.HasWidths (S.parts value.now)) }
{
    out.extend_from_slice(&[table, operation])?;
    value.write_columns(out)
}
