//! The rows of a table put in order: one sort, where they do not stand in order.

ghost use Rattle.std.specs.Prelude.{◌≡◌, ◌↔◌, IsTrue, IsOk, IfOk, OnOk, OnErr, IsPermutation, IsSorted};
ghost use Rattle.pdata_table.specs.Rows.{HasWholeRows, HasRows, rows_of, row_cmp, table_of, sorted_table};

use crate::row::{ROW_LEN, Row, put_row, row_in};
use link_base::Memory;
use std::alloc::Global;

/// Sorts the rows of a table ascending by begin, end and unwind RVA. The table is to have whole rows, of twelve bytes each
/// (PE Format, "The .pdata Section", for x64).
///
/// # Errors
///
/// `Memory` alone, with the table unchanged. A table that is sorted already takes no memory.
pub fn sort_rows(alloc: Global, table: &mut [u8]) -> Result<(), Memory>
    requires { HasWholeRows table.old }
    ensures sorted { OnOk result (table.new ≡ sorted_table table.old) }
    ensures unchanged { OnErr result (table.new ≡ table.old) }
    ensures sorted_already { table.old ≡ sorted_table table.old → IsOk result }
{
    if is_sorted(table) {
        return Ok(());
    }
    let mut rows = rows_of(alloc, table)?;
    sort(&mut rows);
    write_rows(table, &rows);
    Ok(())
}

/// Whether a table is sorted: no row comes before the one before it.
fn is_sorted(table: &[u8]) -> bool
    requires { HasWholeRows table.now }
    ensures { IsTrue result ↔ (table.now ≡ sorted_table table.now) }
{
    for index in 1..table.len() / ROW_LEN {
        if row_in(table, index) < row_in(table, index - 1) {
            return false;
        }
    }
    true
}

/// The rows of a table.
fn rows_of(alloc: Global, table: &[u8]) -> Result<Vec<Row>, Memory>
    ensures { IfOk result (λ rows. rows.items ≡ rows_of table.now) }
{
    let count = table.len() / ROW_LEN;
    let mut rows = Vec::with_capacity(alloc, count)?;
    for index in 0..count {
        rows.push(row_in(table, index))?;
    }
    Ok(rows)
}

/// Sorts rows in place. Rows that tie are equal, so nobody sees that they may change places.
fn sort(rows: &mut Vec<Row>)
    ensures permutation { IsPermutation rows.old.items rows.new.items }
    ensures sorted { IsSorted row_cmp rows.new.items }
{
    rows.sort_unstable();
}

/// Writes rows over a table of as many.
fn write_rows(table: &mut [u8], rows: &[Row])
    requires { HasRows table.old rows.now }
    ensures { table.new ≡ table_of rows.now }
{
    for (index, row) in rows.iter().enumerate() {
        let at = ROW_LEN * index;
        put_row(&mut table[at..at + ROW_LEN], *row);
    }
}
