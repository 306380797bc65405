// Work on the blocks of a table.
ghost use Rattle.std.specs.Prelude.{◌≡◌, ◌<◌, ◌+◌, ◌++◌, ◌∷◌, [], OnOk, OnErr, None, if◌then◌else◌, is_some, length, remove, vec_len};
ghost use Rattle.std.specs.Option.{option_copied};
ghost use Rattle.ordered_rows.specs.RowKey.{row_key};
ghost use Rattle.ordered_rows.specs.Listed.{IsTaken, is_below, row_at, rows_from, last_row, with_row, with_replaced, without, without_number};
ghost use Rattle.ordered_rows.specs.Blocks.{flat, AreFilled, IsTable, IsSpot, IsEnd, IsFirst, IsPlace, last_passes};

use crate::key::{Key, Keyed, compare, is_same};
use std::alloc::{AllocError, Global};

// So many rows in a block are too many.
const FULL: usize = 64;

// Whether the last row of a block is below a key.
fn ends_below<R: Keyed>(block: &Vec<R>, key: Key<'_>) -> bool
    ensures { result ≡ last_passes (is_below R.key_of (row_key key.entry)) block.now }
{
    match block.last() {
        Some(row) => compare(row.key(), key).is_lt(),
        None => true,
    }
}

// The block and the place in it of the first row that isn't below a key.
pub(crate) fn spot<R: Keyed>(blocks: &[Vec<R>], key: Key<'_>) -> Option<(usize, usize)>
    requires { IsTable R.key_of blocks.now }
    ensures { IsEnd (is_below R.key_of (row_key key.entry)) blocks.now result }
{
    let n = blocks.partition_point(|block| ends_below(block, key));
    if n == blocks.len() {
        return None;
    }
    let block: &[R] = &blocks[n];
    let i = block.partition_point(|row| compare(row.key(), key).is_lt());
    Some((n, i))
}

// The block and the place in it of the row with a key.
fn place<R: Keyed>(blocks: &[Vec<R>], key: Key<'_>) -> Option<(usize, usize)>
    requires { IsTable R.key_of blocks.now }
    ensures { IsPlace R.key_of (row_key key.entry) blocks.now result }
{
    match spot(blocks, key) {
        Some((n, i)) => {
            let block: &[R] = &blocks[n];
            if is_same(block[i].key(), key) {
                Some((n, i))
            } else {
                None
            }
        }
        None => None,
    }
}

pub(crate) fn row_in<'a, R: Keyed>(blocks: &'a [Vec<R>], key: Key<'_>) -> Option<&'a R>
    requires { IsTable R.key_of blocks.now }
    ensures { option_copied result ≡ row_at R.key_of (row_key key.entry) (flat blocks.now) }
{
    match place(blocks, key) {
        Some((n, i)) => {
            let block: &[R] = &blocks[n];
            Some(&block[i])
        }
        None => None,
    }
}

// The rows from a key on: the rest of a block, and the blocks after it.
pub(crate) fn rest_in<'a, R: Keyed>(blocks: &'a [Vec<R>], key: Key<'_>) -> (&'a [R], &'a [Vec<R>])
    requires { IsTable R.key_of blocks.now }
    ensures { result.0.now ++ flat result.1.now ≡ rows_from R.key_of (row_key key.entry) (flat blocks.now) }
{
    match spot(blocks, key) {
        Some((n, i)) => {
            let block: &[R] = &blocks[n];
            (&block[i..], &blocks[n + 1..])
        }
        None => (&[], &[]),
    }
}

// Inserts a row before row i of block n.
fn put_in<R: Keyed>(blocks: &mut Vec<Vec<R>>, n: usize, i: usize, row: R) -> Result<(), AllocError>
    requires spot { IsSpot (is_below R.key_of (R.key_of row)) blocks.old.items n i }
    requires filled { AreFilled blocks.old.items }
    ensures filled { AreFilled blocks.new.items }
    ensures len { vec_len blocks.new ≡ vec_len blocks.old }
    ensures ok { OnOk result (flat blocks.new.items ≡ with_row R.key_of row (flat blocks.old.items)) }
    ensures err { OnErr result (flat blocks.new.items ≡ flat blocks.old.items) }
{
    let block = &mut blocks[n];
    block.insert(i, row)?;
    Ok(())
}

// Halves block n where it is full.
fn halve_full<R: Keyed>(alloc: Global, blocks: &mut Vec<Vec<R>>, n: usize) -> Result<(), AllocError>
    requires within { n < vec_len blocks.old }
    requires filled { AreFilled blocks.old.items }
    ensures filled { AreFilled blocks.new.items }
    ensures rows { flat blocks.new.items ≡ flat blocks.old.items }
{
    if blocks[n].len() < FULL {
        return Ok(());
    }
    blocks.insert(n + 1, Vec::new(alloc))?;
    let block = &mut blocks[n];
    match block.split_off(FULL / 2) {
        Ok(tail) => {
            blocks[n + 1] = tail;
            Ok(())
        }
        Err(e) => {
            blocks.remove(n + 1);
            Err(e)
        }
    }
}

// Puts a row into a new block behind all others.
fn put_block<R: Keyed>(alloc: Global, blocks: &mut Vec<Vec<R>>, row: R) -> Result<(), AllocError>
    requires { AreFilled blocks.old.items }
    ensures filled { AreFilled blocks.new.items }
    ensures ok { OnOk result (flat blocks.new.items ≡ flat blocks.old.items ++ row ∷ []) }
    ensures err { OnErr result (flat blocks.new.items ≡ flat blocks.old.items) }
{
    let mut block = Vec::new(alloc);
    block.push(row)?;
    blocks.push(block)?;
    Ok(())
}

// Puts a row behind all others.
fn put_last<R: Keyed>(alloc: Global, blocks: &mut Vec<Vec<R>>, row: R) -> Result<(), AllocError>
    requires { AreFilled blocks.old.items }
    ensures filled { AreFilled blocks.new.items }
    ensures ok { OnOk result (flat blocks.new.items ≡ flat blocks.old.items ++ row ∷ []) }
    ensures err { OnErr result (flat blocks.new.items ≡ flat blocks.old.items) }
{
    let len = blocks.len();
    if len == 0 || blocks[len - 1].len() + 1 >= FULL {
        return put_block(alloc, blocks, row);
    }
    let block = &mut blocks[len - 1];
    block.push(row)?;
    Ok(())
}

// Puts a new row at its place. A block that can't be halved for want of memory stays long until the next row comes into it.
pub(crate) fn put<R: Keyed>(
    alloc: Global,
    blocks: &mut Vec<Vec<R>>,
    row: R,
) -> Result<(), AllocError>
    requires table { IsTable R.key_of blocks.old.items }
    requires new { row_at R.key_of (R.key_of row) (flat blocks.old.items) ≡ None }
    ensures table { IsTable R.key_of blocks.new.items }
    ensures ok { OnOk result (flat blocks.new.items ≡ with_row R.key_of row (flat blocks.old.items)) }
    ensures count { OnOk result (length (flat blocks.new.items) ≡ length (flat blocks.old.items) + 1) }
    ensures err { OnErr result (flat blocks.new.items ≡ flat blocks.old.items) }
{
    match spot(blocks, row.key()) {
        Some((n, i)) => {
            put_in(blocks, n, i, row)?;
            let _ = halve_full(alloc, blocks, n);
            Ok(())
        }
        None => put_last(alloc, blocks, row),
    }
}

// Takes out block n where it has no row.
fn drop_empty<R: Keyed>(blocks: &mut Vec<Vec<R>>, n: usize)
    requires within { n < vec_len blocks.old }
    requires others { AreFilled (remove blocks.old.items n) }
    ensures filled { AreFilled blocks.new.items }
    ensures rows { flat blocks.new.items ≡ flat blocks.old.items }
{
    if blocks[n].is_empty() {
        blocks.remove(n);
    }
}

// Takes out the row with a key.
pub(crate) fn take_out<R: Keyed>(blocks: &mut Vec<Vec<R>>, key: Key<'_>) -> Option<R>
    requires { IsTable R.key_of blocks.old.items }
    ensures table { IsTable R.key_of blocks.new.items }
    ensures row { result ≡ row_at R.key_of (row_key key.entry) (flat blocks.old.items) }
    ensures rows { flat blocks.new.items ≡ without R.key_of (row_key key.entry) (flat blocks.old.items) }
    ensures count { length (flat blocks.new.items) + (if is_some result then 1 else 0) ≡ length (flat blocks.old.items) }
{
    match place(blocks, key) {
        Some((n, i)) => {
            let block = &mut blocks[n];
            let row = block.remove(i);
            drop_empty(blocks, n);
            Some(row)
        }
        None => None,
    }
}

// The block and the place in it of the first row of a number.
fn first_place<R: Keyed>(blocks: &[Vec<R>], number: u64) -> Option<(usize, usize)>
    requires { IsTable R.key_of blocks.now }
    ensures { IsFirst R.key_of number blocks.now result }
{
    match spot(blocks, Key::of_number(number)) {
        Some((n, i)) => {
            let block: &[R] = &blocks[n];
            if block[i].key().number == number {
                Some((n, i))
            } else {
                None
            }
        }
        None => None,
    }
}

// Takes out the first row of a number.
pub(crate) fn take_first<R: Keyed>(blocks: &mut Vec<Vec<R>>, number: u64) -> Option<R>
    requires { IsTable R.key_of blocks.old.items }
    ensures table { IsTable R.key_of blocks.new.items }
    ensures others { without_number R.key_of number (flat blocks.new.items) ≡ without_number R.key_of number (flat blocks.old.items) }
    ensures none { result ≡ None → without_number R.key_of number (flat blocks.new.items) ≡ flat blocks.new.items }
    ensures row { IsTaken R.key_of (flat blocks.old.items) (flat blocks.new.items) result }
    ensures count { length (flat blocks.new.items) + (if is_some result then 1 else 0) ≡ length (flat blocks.old.items) }
{
    match first_place(blocks, number) {
        Some((n, i)) => {
            let block = &mut blocks[n];
            let row = block.remove(i);
            drop_empty(blocks, n);
            Some(row)
        }
        None => None,
    }
}

// Puts a row in the place of the one that has its key.
pub(crate) fn exchange<R: Keyed>(blocks: &mut Vec<Vec<R>>, row: R)
    requires { IsTable R.key_of blocks.old.items }
    ensures table { IsTable R.key_of blocks.new.items }
    ensures rows { flat blocks.new.items ≡ with_replaced R.key_of row (flat blocks.old.items) }
    ensures count { length (flat blocks.new.items) ≡ length (flat blocks.old.items) }
{
    match place(blocks, row.key()) {
        Some((n, i)) => {
            let block = &mut blocks[n];
            block[i] = row;
        }
        None => {}
    }
}

pub(crate) fn last_in<R: Keyed>(blocks: &[Vec<R>]) -> Option<&R>
    requires { AreFilled blocks.now }
    ensures { option_copied result ≡ last_row (flat blocks.now) }
{
    let block = blocks.last()?;
    block.last()
}
