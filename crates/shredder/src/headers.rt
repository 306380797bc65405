// The fields of a part.
ghost use Rattle.std.specs.Prelude.{◌≡◌, ℕ, [], OnOk, List};
ghost use Rattle.std.specs.List.{AllByRecursion};
ghost use Rattle.row_tables.specs.Fits.{IsText};
ghost use Rattle.row_tables.specs.References.{HasPart, fields_at};
ghost use Rattle.row_tables.specs.TableRows.{TableRows};
ghost use Rattle.row_tables.specs.declared.contents.BodyPart.{BodyPart};
ghost use Rattle.shredder.specs.Fitting.{FieldFits, IsShort};
ghost use Rattle.shredder.specs.MessageRows.{HasFields};
ghost use Rattle.shredder.specs.Making.{AreBefore, Between, Here, IsAdded, Leads, holding};

use crate::addresses::add_addresses;
use crate::fields::{Place, push_field};
use crate::laws::row_laws;
use crate::names::add_name;
use crate::new_rows::NewRows;
use mime_tree::Field;
use row_tables::{RowChange, Tables};
use std::alloc::{AllocError, Global};

// Adds the rows of a part's fields. The part is there, and has no field yet.
pub(crate) fn add_fields(
    alloc: Global,
    changes: &mut Vec<RowChange>,
    shared: &mut NewRows,
    message: u64,
    path: &[u8],
    fields: &[Field],
    tables: &Tables,
) -> Result<(), AllocError>
    requires count { IsShort fields.now }
    requires fits { AllByRecursion FieldFits fields.now }
    requires path { IsText path.now }
    ensures { (now : TableRows) (bodies : List BodyPart) → Between message tables.now (holding shared.old.added bodies) now → HasPart now message path.now
        → fields_at message path.now now.mails.header_fields ≡ []
        → OnOk result (Leads message tables.now now (holding shared.old.added bodies) changes.old.items (Here path.now)
        (λ after. HasFields after message path.now fields.now) (holding shared.new.added bodies) changes.new.items) }
{
    row_laws();
    for place in 0..fields.len() {
        let at = Place {
            message,
            path,
            place: place as u32,
        };
        add_field(alloc, changes, shared, at, &fields[place], tables)?;
    }
    Ok(())
}

// Adds the rows of a field behind those of the fields before it.
fn add_field(
    alloc: Global,
    changes: &mut Vec<RowChange>,
    shared: &mut NewRows,
    at: Place<'_>,
    field: &Field,
    tables: &Tables,
) -> Result<(), AllocError>
    requires fits { FieldFits field.now }
    requires path { IsText at.path.now }
    ensures { (now : TableRows) (bodies : List BodyPart) → Between at.entry.message tables.now (holding shared.old.added bodies) now → HasPart now at.entry.message at.entry.path.now
        → AreBefore at.entry.place (fields_at at.entry.message at.entry.path.now now.mails.header_fields)
        → OnOk result (Leads at.entry.message tables.now now (holding shared.old.added bodies) changes.old.items (Here at.entry.path.now)
        (IsAdded at.entry.message at.entry.path.now at.entry.place field.now now) (holding shared.new.added bodies) changes.new.items) }
{
    row_laws();
    let name = add_name(alloc, changes, shared, field.name.as_slice(), tables)?;
    let addresses = add_addresses(alloc, changes, shared, &field.value, tables)?;
    push_field(alloc, changes, at, field, name, &addresses)?;
    Ok(())
}
