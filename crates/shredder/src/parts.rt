// The rows of parts, each without the parts within it.
ghost use Rattle.std.specs.Prelude.{◌≡◌, ◌≤◌, [], ◌++◌, ◌∷◌, None, OnOk, IsErrOf};
ghost use Rattle.mime_tree.specs.Contents.{content_of};
ghost use Rattle.row_tables.specs.Fits.{IsText};
ghost use Rattle.row_tables.specs.References.{fields_at};
ghost use Rattle.row_tables.specs.TableRows.{TableRows};
ghost use Rattle.row_tables.specs.declared.change.RowChange.TheVariants.{InsertPartNumber};
ghost use Rattle.row_store.specs.Holding.{in_row, stored_by};
ghost use Rattle.row_store.specs.ThreeFiles.{FaultRose};
ghost use Rattle.row_store.specs.declared.faults.StoreFault.{StoreFault};
ghost use Rattle.shredder.specs.Fitting.{ContentFits};
ghost use Rattle.shredder.specs.MessageRows.{HasLeaf, HasInner, part_at};
ghost use Rattle.shredder.specs.Making.{Between, HasBarePart, HasPartOf, Here, IsReady, IsSameStore, Leads, holding};

use crate::bodies::add_body;
use crate::laws::row_laws;
use disk_model::Disk;
use mime_tree::{Body, Encoding};
use octets::Octets;
use row_store::{RowStore, StoreFault};
use row_tables::{PartNumber, RowChange};
use std::alloc::{AllocError, Global};

// Adds the row of a part, and that of its bytes where it is a leaf whose bytes no row has.
pub(crate) fn add_part<D: Disk>(
    alloc: Global,
    changes: &mut Vec<RowChange>,
    message: u64,
    path: &[u8],
    body: &Body,
    store: &mut RowStore<D>,
) -> Result<(), StoreFault>
    requires path { IsText path.now }
    requires fits { ContentFits path.now (content_of body.now) }
    requires ready { IsReady store.old }
    ensures same { IsSameStore store.old store.new }
    ensures ready { OnOk result (IsReady store.new) }
    ensures failed { IsErrOf result StoreFault.Failed → FaultRose D.told store.old.files store.new.files }
    ensures rows { (t now added : TableRows) → t ≡ store.old.tables → Between message t (holding added store.old.placed) now
        → part_at now message path.now ≡ None
        → OnOk result (Leads message t now (holding added store.old.placed) changes.old.items (Here path.now)
        (HasBarePart message path.now (content_of body.now)) (holding added store.new.placed) changes.new.items) }
{
    match body {
        Body::Leaf {
            encoding: Encoding::Plain,
            bytes,
        } => add_leaf(alloc, changes, message, path, 0, bytes.as_slice(), store),
        Body::Leaf {
            encoding: Encoding::Base64,
            bytes,
        } => add_leaf(alloc, changes, message, path, 1, bytes.as_slice(), store),
        Body::Multi(_) => {
            add_inner(alloc, changes, message, path, 2)?;
            Ok(())
        }
        Body::Nested(_) => {
            add_inner(alloc, changes, message, path, 3)?;
            Ok(())
        }
    }
}

fn add_leaf<D: Disk>(
    alloc: Global,
    changes: &mut Vec<RowChange>,
    message: u64,
    path: &[u8],
    kind: u8,
    bytes: &[u8],
    store: &mut RowStore<D>,
) -> Result<(), StoreFault>
    requires path { IsText path.now }
    requires fits { IsText bytes.now }
    requires ready { IsReady store.old }
    ensures same { IsSameStore store.old store.new }
    ensures ready { OnOk result (IsReady store.new) }
    ensures failed { IsErrOf result StoreFault.Failed → FaultRose D.told store.old.files store.new.files }
    ensures rows { (t now added : TableRows) → t ≡ store.old.tables → Between message t (holding added store.old.placed) now
        → part_at now message path.now ≡ None
        → OnOk result (Leads message t now (holding added store.old.placed) changes.old.items (Here path.now)
        (λ after. HasLeaf (stored_by in_row after) message path.now kind bytes.now × (fields_at message path.now after.mails.header_fields ≡ []))
        (holding added store.new.placed) changes.new.items) }
{
    row_laws();
    let body = add_body(changes, bytes, store)?;
    push_part(alloc, changes, message, path, kind, body)?;
    Ok(())
}

fn add_inner(
    alloc: Global,
    changes: &mut Vec<RowChange>,
    message: u64,
    path: &[u8],
    kind: u8,
) -> Result<(), AllocError>
    requires path { IsText path.now }
    requires inner { 2 ≤ kind }
    ensures { (t now added : TableRows) → Between message t added now → part_at now message path.now ≡ None
        → OnOk result (Leads message t now added changes.old.items (Here path.now)
        (λ after. HasInner after message path.now kind × (fields_at message path.now after.mails.header_fields ≡ [])) added changes.new.items) }
{
    row_laws();
    push_part(alloc, changes, message, path, kind, 0)?;
    Ok(())
}

fn push_part(
    alloc: Global,
    changes: &mut Vec<RowChange>,
    message: u64,
    path: &[u8],
    kind: u8,
    body: u64,
) -> Result<(), AllocError>
    ensures { OnOk result (changes.new.items ≡ changes.old.items
        ++ InsertPartNumber (record { message = message; path = path.now; kind = kind; body = body }) ∷ []) }
{
    let row = PartNumber {
        message,
        path: Octets::new(path.to_vec(alloc)?),
        kind,
        body,
    };
    changes.push(RowChange::InsertPartNumber(row))?;
    Ok(())
}
