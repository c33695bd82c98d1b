//! The tables of a tree (PE Format, "Resource Directory Table").

ghost use Rattle.std.specs.Prelude.{◌≡◌, ◌≤◌, ◌++◌, OnOk, length, map, sum_by, count_by, not};
ghost use Rattle.std.specs.List.{flat_map};
ghost use Rattle.res_merge.specs.Levels.{run_of};
ghost use Rattle.res_merge.specs.Tree as tree;

use crate::rows::{HIGH_BIT, Row};
use crate::runs::Run;
use link_base::{LeNumber, Memory, push_fields};

fn is_text(row: &Row) -> bool
    ensures { result ≡ tree.is_text_row row.now }
{
    row.id >= HIGH_BIT
}

fn text_count(rows: &[Row]) -> usize
    ensures count { result ≡ count_by tree.is_text_row rows.now }
    ensures few { result ≤ length rows.now }
{
    rows.iter().filter(|row| is_text(row)).count()
}

fn number_count(rows: &[Row]) -> usize
    ensures count { result ≡ count_by (λ row. not (tree.is_text_row row)) rows.now }
    ensures few { result ≤ length rows.now }
{
    rows.iter().filter(|row| !is_text(row)).count()
}

/// Appends a table: its counts of texts and of numbers, and its entries.
#[tactic(auto, unfolding(crate::specs::Tree::table))]
pub(crate) fn push_table(out: &mut Vec<u8>, time: u32, rows: &[Row]) -> Result<(), Memory>
    requires { length rows.now ≤ 65535 }
    ensures { OnOk result (out.new.items ≡ out.old.items ++ tree.table time rows.now) }
{
    push_fields(
        out,
        &[
            LeNumber::U32(0),
            LeNumber::U32(time),
            LeNumber::U16(0),
            LeNumber::U16(0),
            LeNumber::U16(text_count(rows) as u16),
            LeNumber::U16(number_count(rows) as u16),
        ],
    )?;
    push_rows(out, rows)?;
    Ok(())
}

fn push_rows(out: &mut Vec<u8>, rows: &[Row]) -> Result<(), Memory>
    ensures { OnOk result (out.new.items ≡ out.old.items ++ flat_map tree.row_bytes rows.now) }
{
    for row in rows {
        push_fields(out, &[LeNumber::U32(row.id), LeNumber::U32(row.target)])?;
    }
    Ok(())
}

/// Appends tables of so many entries each.
pub(crate) fn push_tables(
    out: &mut Vec<u8>,
    time: u32,
    runs: &[Run<'_>],
    rows: &[Row],
) -> Result<(), Memory>
    requires few { length rows.now ≤ 65535 }
    requires counts { sum_by (λ run. run.count) (map run_of runs.now) ≡ length rows.now }
    ensures { OnOk result (out.new.items ≡ out.old.items ++ tree.tables time (map run_of runs.now) rows.now) }
{
    let mut rest = rows;
    for run in runs {
        let (table, others) = rest.split_at(run.count);
        push_table(out, time, table)?;
        rest = others;
    }
    Ok(())
}
