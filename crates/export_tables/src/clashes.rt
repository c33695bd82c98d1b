//! What is wrong with what rows ask for: an ordinal 0, one name twice, one ordinal twice.

ghost use Rattle.std.specs.Prelude.{◌≡◌, ◌<◌, ◌^◌, ◌++◌, false, length, IfOk};
ghost use Rattle.std.specs.Option.{option_to_list};
ghost use Rattle.link_base.specs.Bytes.{first_below};
ghost use Rattle.export_tables.specs.Ordinals.{is_zero, asks_for_zero, has_earlier_name, is_among, has_earlier_ordinal};

use directives::Export;
use indexmap::IndexSet;
use link_base::Memory;
use std::alloc::Global;

/// The first row that asks for the ordinal 0.
pub(crate) fn zero_ordinal(rows: &[Export<'_>]) -> Option<u32>
    requires { length rows.now < 2 ^ 32 }
    ensures { result ≡ first_below (length rows.now) (asks_for_zero rows.now) }
{
    for (index, row) in rows.iter().enumerate() {
        if is_zero(row.ordinal) {
            return Some(index as u32);
        }
    }
    None
}

/// Whether 0 is asked for.
fn is_zero(ordinal: Option<u16>) -> bool
    ensures { result ≡ is_zero ordinal }
{
    match ordinal {
        Some(ordinal) => ordinal == 0,
        None => false,
    }
}

/// The first row whose name an earlier one has. Each name is looked up once.
pub(crate) fn second_name(alloc: Global, rows: &[Export<'_>]) -> Result<Option<u32>, Memory>
    requires { length rows.now < 2 ^ 32 }
    ensures { IfOk result (λ row. row ≡ first_below (length rows.now) (has_earlier_name rows.now)) }
{
    let mut names = IndexSet::new(alloc);
    for (index, row) in rows.iter().enumerate() {
        let is_new = names.insert(row.name.again())?;
        if !is_new {
            return Ok(Some(index as u32));
        }
    }
    Ok(None)
}

/// The first row that asks for the ordinal of an earlier one.
pub(crate) fn second_ordinal(alloc: Global, rows: &[Export<'_>]) -> Result<Option<u32>, Memory>
    requires { length rows.now < 2 ^ 32 }
    ensures { IfOk result (λ row. row ≡ first_below (length rows.now) (has_earlier_ordinal rows.now)) }
{
    let mut ordinals = IndexSet::new(alloc);
    for (index, row) in rows.iter().enumerate() {
        let is_second = asks_again(&mut ordinals, row.ordinal)?;
        if is_second {
            return Ok(Some(index as u32));
        }
    }
    Ok(None)
}

/// Whether an ordinal is among those that were asked for, to which it is added.
fn asks_again(ordinals: &mut IndexSet<u16>, ordinal: Option<u16>) -> Result<bool, Memory>
    ensures again { IfOk result (λ again. again ≡ is_among ordinal ordinals.old.keys) }
    ensures added { IfOk result (λ again. again ≡ false → ordinals.new.keys ≡ ordinals.old.keys ++ option_to_list ordinal) }
{
    let Some(ordinal) = ordinal else {
        return Ok(false);
    };
    let is_new = ordinals.insert(ordinal)?;
    Ok(!is_new)
}
