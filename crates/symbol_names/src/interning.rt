//! How names get numbers.

ghost use Rattle.std.specs.Prelude.{◌≡◌, ◌<◌, ℕ, List, length, IfOk, OnOk, IsTrue};
ghost use Rattle.symbol_names.specs.Interning.{NO_NUMBER, Numbers, KeepsNumbers, AreRecords, IsNamedSo};

use crate::records::{NO_NUMBER, note_record};
use indexmap::IndexSet;
use link_base::{Memory, Name};

/// The number of a name: its own, or the next one.
pub(crate) fn number_of<'a>(names: &mut IndexSet<Name<'a>>, name: &Name<'a>) -> Result<u32, Memory>
    ensures kept { KeepsNumbers names.old.keys names.new.keys }
    ensures numbered { IfOk result (λ number. Numbers names.new.keys number name.now) }
    ensures below { IfOk result (λ number. number < NO_NUMBER) }
{
    let (number, _) = names.insert_full(name.again())?;
    if number >= NO_NUMBER as usize {
        return Err(Memory);
    }
    Ok(number as u32)
}

/// The number of a name: an earlier one, where that is its own, as directives often say one name again; or as above.
pub(crate) fn number_again<'a>(
    names: &mut IndexSet<Name<'a>>,
    earlier: Option<u32>,
    name: &Name<'a>,
) -> Result<u32, Memory>
    ensures kept { KeepsNumbers names.old.keys names.new.keys }
    ensures numbered { IfOk result (λ number. Numbers names.new.keys number name.now) }
{
    if let Some(number) = earlier {
        if is_number_of(names, number, name) {
            return Ok(number);
        }
    }
    number_of(names, name)
}

/// Whether a number is that of a name.
fn is_number_of<'a>(names: &IndexSet<Name<'a>>, number: u32, name: &Name<'a>) -> bool
    ensures { IsTrue result → Numbers names.now.keys number name.now }
{
    match names.get_index(number as usize) {
        Some(own) => own == name,
        None => false,
    }
}

/// The number of the name of a symbol, which is noted at its record.
pub(crate) fn number_symbol<'a>(
    names: &mut IndexSet<Name<'a>>,
    records: &mut Vec<u32>,
    symbol: u32,
    name: &Name<'a>,
) -> Result<u32, Memory>
    ensures kept { KeepsNumbers names.old.keys names.new.keys }
    ensures numbered { IfOk result (λ number. Numbers names.new.keys number name.now) }
    ensures records { OnOk result ((bytes : List ℕ) → IsNamedSo bytes symbol name.now
        → AreRecords names.old.keys bytes records.old.items → AreRecords names.new.keys bytes records.new.items) }
{
    let number = number_of(names, name)?;
    note_record(records, symbol, number);
    Ok(number)
}

/// The name of a number.
pub fn name_at<'a>(names: &IndexSet<Name<'a>>, number: usize) -> Name<'a>
    requires { number < length names.now.keys }
    ensures { Numbers names.now.keys number result }
{
    match names.get_index(number) {
        Some(name) => name.again(),
        None => unreachable!(),
    }
}
