//! Laws of the definitions, each the contract of a function that does nothing.

ghost use Rattle.std.specs.Prelude.{◌≡◌, ◌<◌, ◌==◌, ℕ, true, false, List, length};
ghost use Rattle.std.specs.List.{All, IsDistinct};
ghost use Rattle.std.specs.List.Sorted.{IsNonDecreasingBy};
ghost use Rattle.pdata_table.specs.Rows.{HasWholeRows, rows_of, AreSortedRows, sorted_table};
ghost use Rattle.pdata_table.specs.SortedContents.{content_of, len_of, joined, is_among, sorted_contents};

/// A sorted table has the rows of the table, in ascending order, so that its begin RVAs do not descend, as a search by
/// bisection wants it. It has the table's length, and its numbers are bytes.
pub fn rows_of_sorted_table()
    ensures rows { (table : List ℕ) → All (λ byte. byte < 256) table
        → AreSortedRows (rows_of table) (rows_of (sorted_table table)) }
    ensures begins { (table : List ℕ) → All (λ byte. byte < 256) table
        → IsNonDecreasingBy (λ row. row.begin) (rows_of (sorted_table table)) }
    ensures len { (table : List ℕ) → HasWholeRows table → length (sorted_table table) ≡ length table }
    ensures bytes { (table : List ℕ) → All (λ byte. byte < 256) (sorted_table table) }
{}

/// There is one sorted table: a table with the same rows in ascending order is this one.
pub fn sorted_table_is_the_only_one()
    ensures { (table other : List ℕ) → All (λ byte. byte < 256) other → HasWholeRows other
        → AreSortedRows (rows_of table) (rows_of other) → other ≡ sorted_table table }
{}

/// Pieces whose bytes are a table, one after another, together hold the sorted table once its rows are in order, and each as
/// many bytes as before. Every other piece holds what it held.
pub fn pieces_hold_the_sorted_table()
    ensures rows { (pieces : List ℕ) (contents : List (List ℕ)) → IsDistinct (λ j k. j == k) pieces
        → ((k : ℕ) → is_among k pieces ≡ true → k < length contents) → HasWholeRows (joined contents pieces)
        → joined (sorted_contents pieces contents) pieces ≡ sorted_table (joined contents pieces) }
    ensures len { (pieces : List ℕ) (contents : List (List ℕ)) (k : ℕ) → k < length contents → HasWholeRows (joined contents pieces)
        → len_of (sorted_contents pieces contents) k ≡ len_of contents k }
    ensures beside { (pieces : List ℕ) (contents : List (List ℕ)) (k : ℕ) → k < length contents → is_among k pieces ≡ false
        → content_of (sorted_contents pieces contents) k ≡ content_of contents k }
{}
