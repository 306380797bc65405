// The rows of field names.
ghost use Rattle.std.specs.Prelude.{◌≡◌, ℕ, None, IfOk, List};
ghost use Rattle.row_tables.specs.Fits.{IsText};
ghost use Rattle.row_tables.specs.Indexes.{field_name_id};
ghost use Rattle.row_tables.specs.TableRows.{TableRows};
ghost use Rattle.row_tables.specs.declared.contents.BodyPart.{BodyPart};
ghost use Rattle.shredder.specs.MessageRows.{HasName};
ghost use Rattle.shredder.specs.Making.{Between, Leads, Nowhere, holding};

use crate::laws::row_laws;
use crate::new_rows::{NewRows, behind, free_name};
use octets::Octets;
use row_tables::{FieldName, RowChange, Tables};
use std::alloc::{AllocError, Global};

// The id of a field's name. A name that is in no row yet gets one.
pub(crate) fn add_name(
    alloc: Global,
    changes: &mut Vec<RowChange>,
    shared: &mut NewRows,
    name: &[u8],
    tables: &Tables,
) -> Result<u64, AllocError>
    requires { IsText name.now }
    ensures { (message : ℕ) (now : TableRows) (bodies : List BodyPart) → Between message tables.now (holding shared.old.added bodies) now → IfOk result (λ id. Leads message tables.now now
        (holding shared.old.added bodies) changes.old.items Nowhere (λ after. HasName after.shared.field_names id name.now) (holding shared.new.added bodies) changes.new.items) }
{
    row_laws();
    tables.are_whole();
    shared.added.are_whole();
    match tables.field_name_id(name) {
        Some(id) => Ok(id),
        None => match shared.added.field_name_id(name) {
            Some(id) => Ok(id),
            None => add_row(alloc, changes, shared, name, tables),
        },
    }
}

// Adds the row of a name that no row has.
fn add_row(
    alloc: Global,
    changes: &mut Vec<RowChange>,
    shared: &mut NewRows,
    name: &[u8],
    tables: &Tables,
) -> Result<u64, AllocError>
    requires text { IsText name.now }
    requires new { field_name_id name.now tables.now.shared.field_names ≡ None }
    requires not_added { field_name_id name.now shared.old.added.shared.field_names ≡ None }
    ensures { (message : ℕ) (now : TableRows) (bodies : List BodyPart) → Between message tables.now (holding shared.old.added bodies) now → IfOk result (λ id. Leads message tables.now now
        (holding shared.old.added bodies) changes.old.items Nowhere (λ after. HasName after.shared.field_names id name.now) (holding shared.new.added bodies) changes.new.items) }
{
    row_laws();
    let Some(id) = free_name(tables, &shared.added, shared.name) else {
        return Err(AllocError);
    };
    let row = name_row(alloc, id, name)?;
    let added = name_row(alloc, id, name)?;
    shared.added.apply(RowChange::InsertFieldName(added))?;
    shared.name = behind(id);
    changes.push(RowChange::InsertFieldName(row))?;
    Ok(id)
}

fn name_row(alloc: Global, id: u64, name: &[u8]) -> Result<FieldName, AllocError>
    ensures { IfOk result (λ row. row ≡ record { id = id; name = name.now }) }
{
    Ok(FieldName {
        id,
        name: Octets::new(name.to_vec(alloc)?),
    })
}
