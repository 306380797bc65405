// Counts of rows by a number.
ghost use Rattle.std.specs.Prelude.{◌≡◌, ℕ, ◌<◌, ◌+◌, ◌^◌, OnOk, IsSome, if◌then◌else◌, ◌==◌};
ghost use Rattle.ordered_rows.specs.RowKey.{number_key};
ghost use Rattle.ordered_rows.specs.Listed.{row_at};
ghost use Rattle.ordered_rows.specs.Counts.{count_key, counted};

use crate::key::{Key, Keyed};
use crate::table::Table;
use std::alloc::AllocError;

// How many rows a number has. A number without a row has no count, or one of 0.
#[derive(Drop)]
pub(crate) struct Count {
    pub(crate) number: u64,
    pub(crate) count: u64,
}

impl Keyed for Count {
    ghost use Rattle.ordered_rows.specs.Counts.{count_key};

    ghost key_of = { count_key };

    fn key(&self) -> Key<'_> {
        Key::of_number(self.number)
    }
}

// Makes a count of 0 where a number has none.
pub(crate) fn begin(counts: &mut Table<Count>, number: u64) -> Result<(), AllocError>
    ensures there { OnOk result (IsSome (row_at count_key (number_key number) counts.new)) }
    ensures same { (n : ℕ) → counted n counts.new ≡ counted n counts.old }
{
    if counts.get(Key::of_number(number)).is_some() {
        return Ok(());
    }
    counts.insert(Count { number, count: 0 })
}

// Counts one row more for a number that has a count.
pub(crate) fn raise(counts: &mut Table<Count>, number: u64)
    requires there { IsSome (row_at count_key (number_key number) counts.old) }
    requires small { counted number counts.old + 1 < 2 ^ 64 }
    ensures { (n : ℕ) → counted n counts.new ≡ counted n counts.old + (if number == n then 1 else 0) }
{
    let Some(row) = counts.get(Key::of_number(number)) else {
        return;
    };
    let count = row.count + 1;
    counts.replace(Count { number, count });
}

// Counts one row less for a number, and drops a count of 0.
pub(crate) fn lower(counts: &mut Table<Count>, number: u64)
    requires { 0 < counted number counts.old }
    ensures { (n : ℕ) → counted n counts.new + (if number == n then 1 else 0) ≡ counted n counts.old }
{
    let Some(row) = counts.get(Key::of_number(number)) else {
        return;
    };
    let count = row.count - 1;
    if count == 0 {
        counts.remove(Key::of_number(number));
    } else {
        counts.replace(Count { number, count });
    }
}
