// Laws of tables as lists, for the proofs of callers.
ghost use Rattle.std.specs.Prelude.{◌≡◌, ◌+◌, ◌++◌, ◌∷◌, [], if◌then◌else◌, length, List, Some, None, IsSome, Bool, true, false, nat_lt, ℕ, map};
ghost use Rattle.std.specs.Ordering.{is_lt};
ghost use Rattle.std.specs.List.{AllByRecursion, filter, find};
ghost use Rattle.ordered_rows.specs.RowKey.{RowKey, key_cmp, number_key, same_key};
ghost use Rattle.ordered_rows.specs.InsertLaws.{InsertLaws};
ghost use Rattle.ordered_rows.specs.Listed.{IsInOrder, IsNewNumber, is_below, row_at, last_row, placed, with_row, with_replaced, without};

use crate::key::Keyed;

/// Keys that the test doesn't tell apart are the same, and numbers alone compare as
/// numbers, as do places where all else is the same.
pub fn keys()
    ensures same { (a b : RowKey) → same_key a b ≡ true → a ≡ b }
    ensures itself { (a : RowKey) → same_key a a ≡ true }
    ensures numbers { (a b : ℕ) → is_lt (key_cmp (number_key a) (number_key b)) ≡ nat_lt a b }
    ensures places { (k : RowKey) (a b : ℕ) → is_lt (key_cmp (record k { place = a }) (record k { place = b })) ≡ nat_lt a b }
{}

/// The row at the key of a row that was inserted, and at another key.
pub fn row_after_insert<R: Keyed>()
    ensures same { (row : R) (rows : List R) → row_at R.key_of (R.key_of row) (with_row R.key_of row rows) ≡ Some row }
    ensures other { (row : R) (k : RowKey) (rows : List R) → same_key (R.key_of row) k ≡ false
        → row_at R.key_of k (with_row R.key_of row rows) ≡ row_at R.key_of k rows }
{}

/// The row at the key of a row that replaced one, and at another key.
pub fn row_after_replace<R: Keyed>()
    ensures same { (row : R) (rows : List R) → IsSome (row_at R.key_of (R.key_of row) rows)
        → row_at R.key_of (R.key_of row) (with_replaced R.key_of row rows) ≡ Some row }
    ensures other { (row : R) (k : RowKey) (rows : List R) → same_key (R.key_of row) k ≡ false
        → row_at R.key_of k (with_replaced R.key_of row rows) ≡ row_at R.key_of k rows }
{}

/// A replacement keeps the order.
pub fn order_after_replace<R: Keyed>()
    ensures { (row : R) (rows : List R) → IsInOrder R.key_of rows → IsInOrder R.key_of (with_replaced R.key_of row rows) }
{}

/// The row at a key whose row was removed, and at another key.
pub fn row_after_remove<R: Keyed>()
    ensures same { (k : RowKey) (rows : List R) → row_at R.key_of k (without R.key_of k rows) ≡ None }
    ensures other { (k other : RowKey) (rows : List R) → same_key k other ≡ false
        → row_at R.key_of other (without R.key_of k rows) ≡ row_at R.key_of other rows }
{}

/// A row whose key is above that of the last row goes behind all rows, and is then the last.
pub fn last_row_after_insert<R: Keyed>()
    ensures first { (row : R) → with_row R.key_of row [] ≡ row ∷ [] }
    ensures behind { (row last : R) (rows : List R) → IsInOrder R.key_of rows → last_row rows ≡ Some last
        → is_below R.key_of (R.key_of row) last ≡ true → with_row R.key_of row rows ≡ rows ++ row ∷ [] }
    ensures last { (row : R) (rows : List R) → last_row (rows ++ row ∷ []) ≡ Some row }
{}

/// In order, each row is the one at its key.
pub fn rows_at_keys<R: Keyed>()
    ensures { (rows : List R) → IsInOrder R.key_of rows → AllByRecursion (λ r. row_at R.key_of (R.key_of r) rows ≡ Some r) rows }
{}

/// What an insertion makes of a table, in one record.
pub fn insertion<R: Keyed>()
    ensures { InsertLaws R.key_of }
{}

/// No row has a new number.
pub fn new_number<R: Keyed>()
    ensures { (rows : List R) (n : ℕ) → IsInOrder R.key_of rows → IsNewNumber R.key_of rows n
        → row_at R.key_of (number_key n) rows ≡ None }
{}

/// A row put in and taken out again leaves the table as it was.
pub fn insert_undone<R: Keyed>()
    ensures { (row : R) (rows : List R) → IsInOrder R.key_of rows → row_at R.key_of (R.key_of row) rows ≡ None
        → without R.key_of (R.key_of row) (with_row R.key_of row rows) ≡ rows }
{}

/// What a test finds after an insertion.
pub fn found_after_insert<R: Keyed>()
    ensures same { (g : R → Bool) (row : R) (rows : List R) → g row ≡ true → find g rows ≡ None
        → find g (with_row R.key_of row rows) ≡ Some row }
    ensures other { (g : R → Bool) (row : R) (rows : List R) → g row ≡ false → IsInOrder R.key_of rows
        → find g (with_row R.key_of row rows) ≡ find g rows }
{}

/// The numbers of the rows that pass a test, after an insertion: the new number goes to its place, where the rows that pass are
/// ordered by their numbers.
pub fn numbers_after_insert<R: Keyed>()
    ensures same { (f : R → ℕ) (g : R → Bool) (row : R) (rows : List R) → g row ≡ true
        → ((r : R) → g r ≡ true → is_below R.key_of (R.key_of row) r ≡ nat_lt (f r) (f row))
        → map f (filter g (with_row R.key_of row rows)) ≡ placed (f row) (map f (filter g rows)) }
    ensures other { (f : R → ℕ) (g : R → Bool) (row : R) (rows : List R) → g row ≡ false → IsInOrder R.key_of rows
        → map f (filter g (with_row R.key_of row rows)) ≡ map f (filter g rows) }
{}

/// A replacement is the removal of the row that has the key, and the insertion of the other.
pub fn replacement<R: Keyed>()
    ensures { (row : R) (rows : List R) → IsInOrder R.key_of rows → IsSome (row_at R.key_of (R.key_of row) rows)
        → with_replaced R.key_of row rows ≡ with_row R.key_of row (without R.key_of (R.key_of row) rows) }
{}

/// How many rows pass a test, after an insertion and after a removal.
pub fn counts<R: Keyed>()
    ensures inserted { (g : R → Bool) (row : R) (rows : List R) → IsInOrder R.key_of rows
        → length (filter g (with_row R.key_of row rows)) ≡ length (filter g rows) + (if g row then 1 else 0) }
    ensures removed { (g : R → Bool) (k : RowKey) (row : R) (rows : List R) → IsInOrder R.key_of rows → row_at R.key_of k rows ≡ Some row
        → length (filter g (without R.key_of k rows)) + (if g row then 1 else 0) ≡ length (filter g rows) }
{}
