// The rows of a message and of its parts.
ghost use Rattle.std.specs.Prelude.{◌≡◌, ◌+◌, ◌^◌, ◌<◌, ℕ, length, OnOk, IsErrOf};
ghost use Rattle.mime_tree.specs.Contents.{content_of, trees_of};
ghost use Rattle.row_tables.specs.TableRows.{TableRows};
ghost use Rattle.row_store.specs.Holding.{in_row, stored_by};
ghost use Rattle.row_store.specs.ThreeFiles.{FaultRose};
ghost use Rattle.row_store.specs.declared.faults.StoreFault.{StoreFault};
ghost use Rattle.shredder.specs.Fitting.{ChildrenFit, ContentFits, NodeFits};
ghost use Rattle.shredder.specs.MessageRows.{HasChildren, HasNode};
ghost use Rattle.shredder.specs.Paths.{child_paths, inner_paths, paths};
ghost use Rattle.shredder.specs.Making.{Among, Between, HasInside, IsOpen, IsOpenFrom, IsReady, IsSameStore, Leads, holding};

use crate::headers::add_fields;
use crate::laws::row_laws;
use crate::new_rows::NewRows;
use crate::parts::add_part;
use crate::paths::path_of_child;
use disk_model::Disk;
use mime_tree::{Body, Message};
use row_store::{RowStore, StoreFault};
use row_tables::RowChange;
use std::alloc::Global;

// Adds the rows of a message or part that stands at a path.
#[cycle(tree)]
pub(crate) fn add_node<D: Disk>(
    alloc: Global,
    changes: &mut Vec<RowChange>,
    shared: &mut NewRows,
    message: u64,
    path: &[u8],
    node: &Message,
    store: &mut RowStore<D>,
) -> Result<(), StoreFault>
    requires fits { NodeFits path.now node.now }
    requires ready { IsReady store.old }
    ensures same { IsSameStore store.old store.new }
    ensures ready { OnOk result (IsReady store.new) }
    ensures failed { IsErrOf result StoreFault.Failed → FaultRose D.told store.old.files store.new.files }
    ensures rows { (t now : TableRows) → t ≡ store.old.tables → Between message t (holding shared.old.added store.old.placed) now → IsOpen now message path.now
        → OnOk result (Leads message t now (holding shared.old.added store.old.placed) changes.old.items (Among (paths path.now node.now))
        (λ after. HasNode (stored_by in_row after) message path.now node.now) (holding shared.new.added store.new.placed) changes.new.items) }
{
    row_laws();
    add_part(alloc, changes, message, path, &node.body, store)?;
    add_fields(
        alloc,
        changes,
        shared,
        message,
        path,
        &node.fields,
        store.tables(),
    )?;
    add_inside(alloc, changes, shared, message, path, &node.body, store)?;
    Ok(())
}

// Adds the rows of what stands within a part.
#[cycle(tree)]
fn add_inside<D: Disk>(
    alloc: Global,
    changes: &mut Vec<RowChange>,
    shared: &mut NewRows,
    message: u64,
    path: &[u8],
    body: &Body,
    store: &mut RowStore<D>,
) -> Result<(), StoreFault>
    requires fits { ContentFits path.now (content_of body.now) }
    requires ready { IsReady store.old }
    ensures same { IsSameStore store.old store.new }
    ensures ready { OnOk result (IsReady store.new) }
    ensures failed { IsErrOf result StoreFault.Failed → FaultRose D.told store.old.files store.new.files }
    ensures rows { (t now : TableRows) → t ≡ store.old.tables → Between message t (holding shared.old.added store.old.placed) now → IsOpenFrom now message path.now 0
        → OnOk result (Leads message t now (holding shared.old.added store.old.placed) changes.old.items (Among (inner_paths path.now (content_of body.now)))
        (HasInside message path.now (content_of body.now)) (holding shared.new.added store.new.placed) changes.new.items) }
{
    match body {
        Body::Leaf { .. } => Ok(()),
        Body::Multi(parts) => add_children(alloc, changes, shared, message, path, parts, store),
        Body::Nested(inner) => {
            let path = path_of_child(alloc, path, 0)?;
            add_node(alloc, changes, shared, message, &path, inner, store)?;
            Ok(())
        }
    }
}

// Adds the rows of the parts of a multipart.
#[cycle(tree)]
fn add_children<D: Disk>(
    alloc: Global,
    changes: &mut Vec<RowChange>,
    shared: &mut NewRows,
    message: u64,
    path: &[u8],
    parts: &[Message],
    store: &mut RowStore<D>,
) -> Result<(), StoreFault>
    requires count { 1 + length parts.now < 2 ^ 64 }
    requires fits { ChildrenFit path.now 1 (trees_of parts.now) }
    requires ready { IsReady store.old }
    ensures same { IsSameStore store.old store.new }
    ensures ready { OnOk result (IsReady store.new) }
    ensures failed { IsErrOf result StoreFault.Failed → FaultRose D.told store.old.files store.new.files }
    ensures rows { (t now : TableRows) → t ≡ store.old.tables → Between message t (holding shared.old.added store.old.placed) now → IsOpenFrom now message path.now 0
        → OnOk result (Leads message t now (holding shared.old.added store.old.placed) changes.old.items (Among (child_paths path.now 1 (trees_of parts.now)))
        (λ after. HasChildren (stored_by in_row after) message path.now 1 (trees_of parts.now)) (holding shared.new.added store.new.placed) changes.new.items) }
{
    row_laws();
    for number in 0..parts.len() {
        let child = path_of_child(alloc, path, 1 + number as u64)?;
        add_node(
            alloc,
            changes,
            shared,
            message,
            &child,
            &parts[number],
            store,
        )?;
    }
    Ok(())
}
