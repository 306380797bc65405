//! Placing bodies, so that equal ones share a row.

ghost use Rattle.std.specs.Prelude.{◌≡◌, ◌↔◌, ◌+◌, ◌-◌, ◌^◌, ◌<◌, ◌≤◌, nat_lt, max, not, ◌++◌, ℕ, Some, IfOk, OnErr, IfSome, IfNone, IsSome, IsTrue};
ghost use Rattle.std.specs.List.{Contains, list_any};
ghost use Rattle.std.specs.Option.{is_some};
ghost use Rattle.sha2.specs.Sha256.{sha256};
ghost use Rattle.ordered_rows.specs.RowKey.{number_key};
ghost use Rattle.ordered_rows.specs.Listed.{row_at, has_number, IsLeastFree};
ghost use Rattle.row_tables.specs.Keys.{body_part_key};
ghost use Rattle.row_tables.specs.declared.contents.BodyPart.{BodyPart};
ghost use Rattle.row_store.specs.Holding.{stored_by, in_row};
ghost use Rattle.row_store.specs.Bodies.{HasBytes, IsThere, greatest_id, IsNewId, PlacesBytes};
ghost use Rattle.row_store.specs.Refusals.{RowHas};

use octets::Octets;
use ordered_rows::laws::keys;
use row_tables::{BodyPart, RowChange, Tables};
use sha2::{Digest, Sha256};
use std::alloc::{AllocError, Global};

/// A body that was placed.
#[derive(Drop)]
pub struct BodyRef {
    /// The id of its row.
    pub id: u64,
    /// The change that inserts its row. `None` where a row, or a body that was placed since the last commit, has the same bytes.
    pub change: Option<RowChange>,
}

// Finds the body of these bytes among the rows and those that were placed, or places a new one.
pub(crate) fn place(
    alloc: Global,
    tables: &Tables,
    placed: &mut Vec<BodyPart>,
    bytes: &[u8],
) -> Result<BodyRef, AllocError>
    ensures places { IfOk result (λ body. PlacesBytes in_row tables.now.shared.bodyparts placed.old.items placed.new.items bytes.now body.id body.change) }
    ensures err { OnErr result (placed.new.items ≡ placed.old.items) }
{
    let digest = Sha256::digest(bytes);
    if let Some(id) = find(tables, placed, &digest, bytes) {
        return Ok(BodyRef { id, change: None });
    }
    let id = new_id(tables, placed)?;
    let change = RowChange::InsertBodyPart(new_row(alloc, id, digest, bytes)?);
    placed.push(new_row(alloc, id, digest, bytes)?)?;
    Ok(BodyRef {
        id,
        change: Some(change),
    })
}

// The content of a body.
pub(crate) fn body_bytes(alloc: Global, tables: &Tables, id: u64) -> Result<Vec<u8>, AllocError>
    requires { IsSome (row_at body_part_key (number_key id) tables.now.shared.bodyparts) }
    ensures { IfOk result (λ bytes. (stored_by in_row tables.now).contents id ≡ Some bytes.items) }
{
    match tables.bodyparts_row(id) {
        Some(row) => row.content.as_slice().to_vec(alloc),
        None => unreachable!(),
    }
}

// A row of a body.
fn new_row(alloc: Global, id: u64, digest: [u8; 32], bytes: &[u8]) -> Result<BodyPart, AllocError>
    ensures { IfOk result (λ row. row ≡ record { id = id; digest = digest; content = bytes.now }) }
{
    Ok(BodyPart {
        id,
        digest,
        content: Octets::new(bytes.to_vec(alloc)?),
    })
}

// The id of the body that has these bytes, if one is there.
fn find(tables: &Tables, placed: &[BodyPart], digest: &[u8; 32], bytes: &[u8]) -> Option<u64>
    requires { digest.now ≡ sha256 bytes.now }
    ensures some { IfSome result (λ id. (body : BodyPart) × IsThere tables.now.shared.bodyparts placed.now body × (body.id ≡ id) × HasBytes in_row body bytes.now) }
    ensures none { IfNone result ((body : BodyPart) → IsThere tables.now.shared.bodyparts placed.now body → HasBytes in_row body bytes.now → ⊥) }
{
    match find_row(tables, digest, bytes) {
        Some(id) => Some(id),
        None => find_placed(placed, digest, bytes),
    }
}

// The id of the row that has these bytes.
fn find_row(tables: &Tables, digest: &[u8; 32], bytes: &[u8]) -> Option<u64>
    requires { digest.now ≡ sha256 bytes.now }
    ensures some { IfSome result (λ id. RowHas tables.now.shared.bodyparts id bytes.now) }
    ensures none { IfNone result ((id : ℕ) → RowHas tables.now.shared.bodyparts id bytes.now → ⊥) }
{
    let mut ids = tables.body_ids(digest);
    'search: while let Some(id) = ids.next() {
        if row_has(tables, id, digest, bytes) {
            return Some(id);
        }
    }
    None
}

// Whether a row has these bytes and this digest.
fn row_has(tables: &Tables, id: u64, digest: &[u8; 32], bytes: &[u8]) -> bool
    requires { digest.now ≡ sha256 bytes.now }
    ensures { IsTrue result ↔ RowHas tables.now.shared.bodyparts id bytes.now }
{
    match tables.bodyparts_row(id) {
        Some(row) => has_bytes(row, digest, bytes),
        None => false,
    }
}

// Whether a body has these bytes and this digest.
fn has_bytes(body: &BodyPart, digest: &[u8; 32], bytes: &[u8]) -> bool
    requires { digest.now ≡ sha256 bytes.now }
    ensures { IsTrue result ↔ HasBytes in_row body.now bytes.now }
{
    body.digest == *digest && body.content.as_slice() == bytes
}

// The id of the first placed body that has these bytes.
fn find_placed(placed: &[BodyPart], digest: &[u8; 32], bytes: &[u8]) -> Option<u64>
    requires { digest.now ≡ sha256 bytes.now }
    ensures some { IfSome result (λ id. (body : BodyPart) × Contains placed.now body × (body.id ≡ id) × HasBytes in_row body bytes.now) }
    ensures none { IfNone result ((body : BodyPart) → Contains placed.now body → HasBytes in_row body bytes.now → ⊥) }
{
    for body in placed {
        if has_bytes(body, digest, bytes) {
            return Some(body.id);
        }
    }
    None
}

// The id for a new body.
fn new_id(tables: &Tables, placed: &[BodyPart]) -> Result<u64, AllocError>
    ensures { IfOk result (IsNewId (tables.now.shared.bodyparts ++ placed.now)) }
{
    let greatest = greatest_placed(placed);
    if is_last_taken(tables, greatest) {
        return least_free(tables, placed);
    }
    Ok(next_row_id(tables).max(greatest + 1))
}

// The greatest id of those that were placed, 0 where there are none.
fn greatest_placed(placed: &[BodyPart]) -> u64
    ensures { result ≡ greatest_id placed.now }
{
    let mut greatest = 0;
    for body in placed {
        greatest = greatest.max(body.id);
    }
    greatest
}

// Whether some body has the last id of 64 bits. `greatest` is the greatest id of those that were placed.
fn is_last_taken(tables: &Tables, greatest: u64) -> bool
    ensures { result ≡ not (nat_lt (max (greatest_id tables.now.shared.bodyparts) greatest) (2 ^ 64 - 1)) }
{
    rows_reach_last(tables) || greatest == u64::MAX
}

// Whether some row has the last id of 64 bits.
fn rows_reach_last(tables: &Tables) -> bool
    ensures { result ≡ not (nat_lt (greatest_id tables.now.shared.bodyparts) (2 ^ 64 - 1)) }
{
    keys();
    tables.bodyparts_rows_from(u64::MAX).next().is_some()
}

// The id above those of all rows.
fn next_row_id(tables: &Tables) -> u64
    requires { greatest_id tables.now.shared.bodyparts < 2 ^ 64 - 1 }
    ensures { result ≡ greatest_id tables.now.shared.bodyparts + 1 }
{
    keys();
    tables.are_whole();
    tables.new_body_part_id()
}

// The least id from 1 on that no body has. There is one, unless there are more bodies than any memory has.
fn least_free(tables: &Tables, placed: &[BodyPart]) -> Result<u64, AllocError>
    ensures { IfOk result (IsLeastFree body_part_key 1 (tables.now.shared.bodyparts ++ placed.now)) }
{
    for id in 1..u64::MAX {
        if !has_id(tables, placed, id) {
            return Ok(id);
        }
    }
    Err(AllocError)
}

// Whether a body has the id.
fn has_id(tables: &Tables, placed: &[BodyPart], id: u64) -> bool
    ensures { result ≡ list_any (has_number body_part_key id) (tables.now.shared.bodyparts ++ placed.now) }
{
    row_has_id(tables, id) || placed_has_id(placed, id)
}

fn row_has_id(tables: &Tables, id: u64) -> bool
    ensures { result ≡ is_some (row_at body_part_key (number_key id) tables.now.shared.bodyparts) }
{
    tables.bodyparts_row(id).is_some()
}

fn placed_has_id(placed: &[BodyPart], id: u64) -> bool
    ensures { result ≡ list_any (has_number body_part_key id) placed.now }
{
    placed.iter().any(|body| body.id == id)
}
