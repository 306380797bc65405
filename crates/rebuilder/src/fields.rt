// Header fields from their rows.
ghost use Rattle.std.specs.Prelude.{◌≡◌, ℕ, List, IfOk};
ghost use Rattle.mime_tree.specs.declared.values.Field.{Field};
ghost use Rattle.shredder.specs.MessageRows.{HasFields, IsFieldRow};

use crate::values::{copied, value_in};
use mime_tree::Field;
use octets::Octets;
use row_tables::{HeaderField, Tables};
use std::alloc::{AllocError, Global};

// The fields of the part at a path.
pub(crate) fn fields_in(
    alloc: Global,
    tables: &Tables,
    message: u64,
    path: &[u8],
) -> Result<Vec<Field>, AllocError>
    ensures { (fields : List Field) → HasFields tables.now message path.now fields → IfOk result (λ v. v.items ≡ fields) }
{
    let mut fields = Vec::new(alloc);
    let mut rows = tables.header_fields_at(message, path);
    'rows: while let Some(row) = rows.next() {
        fields.push(field_in(alloc, tables, message, path, row)?)?;
    }
    Ok(fields)
}

// The field at a path whose row this is.
fn field_in(
    alloc: Global,
    tables: &Tables,
    message: u64,
    path: &[u8],
    row: &HeaderField,
) -> Result<Field, AllocError>
    ensures { (field : Field) → IsFieldRow tables.now message path.now row.now.place field row.now → IfOk result (λ read. read ≡ field) }
{
    let name = match tables.field_names_row(row.name) {
        Some(name) => copied(alloc, &name.name)?,
        None => Octets::new(Vec::new(alloc)),
    };
    let value = value_in(alloc, tables, message, path, row)?;
    Ok(Field { name, value })
}
