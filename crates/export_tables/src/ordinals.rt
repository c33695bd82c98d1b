//! The ordinals of rows: those that rows ask for, and numbers above them for the others.

ghost use Rattle.std.specs.Prelude.{◌≡◌, ◌<◌, ◌≤◌, ◌+◌, ◌^◌, None, length, count_by, IfOk, OnOk, IfErr, IsPermutation, IsSorted};
ghost use Rattle.std.specs.Ordering.{nat_cmp};
ghost use Rattle.std.specs.Cmp.Lexicographic.{slice_cmp};
ghost use Rattle.link_base.specs.Bytes.{first_below};
ghost use Rattle.link_base.specs.declared.kinds.export.ExportFault.TheVariants.{TooMany};
ghost use Rattle.export_tables.specs.Ordinals.{greatest, free_names, comes_before, ordinal_above, ordinals_of, has_great_ordinal, bad_row, first_bad, ordinal_fault, RefusesOrdinals};

use crate::clashes::{second_name, second_ordinal, zero_ordinal};
use crate::error::ExportError;
use directives::Export;
use link_base::{ExportFault, Memory, Name};
use std::alloc::Global;

/// The ordinals of some exports. A row that asks for an ordinal has it; the others, by the bytes of their names, have the
/// numbers above the greatest that is asked for, from 1 where none is. Rows that agree in all they say are to count once
/// before this call: of two rows of one name the later is refused.
///
/// # Errors
///
/// `Bad` with `ZeroOrdinal`, `TwoNames`, `TwoOrdinals` and `TooMany`, in this order, each with the least row that has it:
/// it asks for 0; an earlier row has its name; an earlier row asks for its ordinal; its ordinal exceeds 65,535.
#[tactic(auto, unfolding(crate::specs::Ordinals::ordinal_fault))]
pub fn assign(alloc: Global, rows: &[Export<'_>]) -> Result<Vec<u16>, ExportError>
    requires { length rows.now < 2 ^ 32 }
    ensures ordinals { IfOk result (λ ordinals. ordinals.items ≡ ordinals_of rows.now) }
    ensures accepted { OnOk result (ordinal_fault rows.now ≡ None) }
    ensures refused { IfErr result (RefusesOrdinals (ordinal_fault rows.now)) }
{
    if let Some(row) = zero_ordinal(rows) {
        return Err(bad(row, ExportFault::ZeroOrdinal));
    }
    if let Some(row) = second_name(alloc, rows)? {
        return Err(bad(row, ExportFault::TwoNames));
    }
    if let Some(row) = second_ordinal(alloc, rows)? {
        return Err(bad(row, ExportFault::TwoOrdinals));
    }
    numbered(alloc, rows)
}

/// A row and what is wrong with it.
fn bad(row: u32, kind: ExportFault) -> ExportError
    ensures { result ≡ bad_row kind row }
{
    ExportError::Bad { row, kind }
}

/// The ordinals of rows, where each has 16 bits.
fn numbered(alloc: Global, rows: &[Export<'_>]) -> Result<Vec<u16>, ExportError>
    requires { length rows.now < 2 ^ 32 }
    ensures ordinals { IfOk result (λ ordinals. ordinals.items ≡ ordinals_of rows.now) }
    ensures accepted { OnOk result (first_bad TooMany rows.now (has_great_ordinal rows.now) ≡ None) }
    ensures refused { IfErr result (RefusesOrdinals (first_bad TooMany rows.now (has_great_ordinal rows.now))) }
{
    let most = greatest(rows);
    let mut names = free_names(alloc, rows)?;
    sort(&mut names);
    let mut ordinals = Vec::with_capacity(alloc, rows.len())?;
    for (index, row) in rows.iter().enumerate() {
        let ordinal = ordinal_above(most, &names, row);
        if ordinal > usize::from(u16::MAX) {
            return Err(bad(index as u32, ExportFault::TooMany));
        }
        ordinals.push(ordinal as u16)?;
    }
    Ok(ordinals)
}

/// The greatest ordinal that a row asks for, or 0.
fn greatest(rows: &[Export<'_>]) -> u16
    ensures { result ≡ greatest rows.now }
{
    let mut most = 0;
    for row in rows {
        most = most.max(row.ordinal.unwrap_or(0));
    }
    most
}

/// The names of the rows that ask for no ordinal.
fn free_names<'a>(alloc: Global, rows: &[Export<'a>]) -> Result<Vec<Name<'a>>, Memory>
    ensures { IfOk result (λ names. names.items ≡ free_names rows.now) }
{
    let mut names = Vec::new(alloc);
    for row in rows {
        if row.ordinal.is_none() {
            names.push(row.name.again())?;
        }
    }
    Ok(names)
}

/// Sorts names by their bytes.
pub(crate) fn sort(names: &mut Vec<Name<'_>>)
    ensures permutation { IsPermutation names.old.items names.new.items }
    ensures sorted { IsSorted (slice_cmp nat_cmp) names.new.items }
{
    names.sort_unstable();
}

/// The ordinal of a row, by the greatest that is asked for and the names of the rows that ask for none, in their order.
#[tactic(auto, unfolding(crate::specs::Ordinals::ordinal_above))]
fn ordinal_above(most: u16, names: &[Name<'_>], row: &Export<'_>) -> usize
    requires { IsSorted (slice_cmp nat_cmp) names.now }
    ensures { result ≡ ordinal_above most names.now row.now }
{
    match row.ordinal {
        Some(ordinal) => usize::from(ordinal),
        None => usize::from(most) + 1 + count_before(&row.name, names),
    }
}

/// How many of some names in order come before a name, by bisection.
pub(crate) fn count_before(name: &Name<'_>, names: &[Name<'_>]) -> usize
    requires { IsSorted (slice_cmp nat_cmp) names.now }
    ensures count { result ≡ count_by (comes_before name.now) names.now }
    ensures most { result ≤ length names.now }
{
    names.partition_point(|other| other < name)
}
