//! What is exported by each number from the least ordinal to the greatest.

ghost use Rattle.std.specs.Prelude.{◌≡◌, ◌≤◌, [], IfOk};
ghost use Rattle.export_tables.specs.ExportTable.{AreNumbered, least, greatest_of, address_count, targets_in, targets_of};

use crate::row::{ExportRow, ExportTo};
use link_base::Memory;
use std::alloc::Global;

/// The least of some ordinals: the ordinal base of their directory.
pub(crate) fn least(ordinals: &[u16]) -> u16
    ensures { result ≡ least ordinals.now }
{
    let mut least = u16::MAX;
    for ordinal in ordinals {
        least = least.min(*ordinal);
    }
    least
}

/// The greatest, or 0.
fn greatest_of(ordinals: &[u16]) -> u16
    ensures { result ≡ greatest_of ordinals.now }
{
    let mut greatest = 0;
    for ordinal in ordinals {
        greatest = greatest.max(*ordinal);
    }
    greatest
}

/// How many numbers there are from the least ordinal to the greatest.
pub(crate) fn address_count(ordinals: &[u16]) -> usize
    ensures count { result ≡ address_count ordinals.now }
    ensures bound { result ≤ 65536 }
{
    (usize::from(greatest_of(ordinals)) + 1).saturating_sub(usize::from(least(ordinals)))
}

/// What is exported by each number from the least ordinal to the greatest; nothing by one that no row has.
pub(crate) fn targets_of<'a>(
    alloc: Global,
    rows: &[ExportRow<'a>],
    ordinals: &[u16],
) -> Result<Vec<Option<ExportTo<'a>>>, Memory>
    requires { AreNumbered rows.now ordinals.now }
    ensures { IfOk result (λ targets. targets.items ≡ targets_of rows.now ordinals.now) }
{
    let base = least(ordinals);
    let mut targets = no_targets(alloc, rows, base, address_count(ordinals))?;
    for index in 0..rows.len() {
        let place = usize::from(ordinals[index] - base);
        targets[place] = Some(rows[index].what.again());
    }
    Ok(targets)
}

/// Nothing for each of so many numbers.
fn no_targets<'a>(
    alloc: Global,
    rows: &[ExportRow<'a>],
    base: u16,
    count: usize,
) -> Result<Vec<Option<ExportTo<'a>>>, Memory>
    ensures { IfOk result (λ targets. targets.items ≡ targets_in rows.now base count []) }
{
    let mut targets = Vec::with_capacity(alloc, count)?;
    for _ in 0..count {
        targets.push(None)?;
    }
    Ok(targets)
}
