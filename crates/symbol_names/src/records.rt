//! The numbers of names by the records of symbols.

ghost use Rattle.std.specs.Prelude.{◌≡◌, ◌<◌, ℕ, List, map, slice_index_or, IfOk, IfSome};
ghost use Rattle.std.specs.List.{All};
ghost use Rattle.module_view.specs.Module.{module_at};
ghost use Rattle.symbol_names.specs.Interning.{NO_NUMBER, NumbersSymbol, AreRecords, NotesModule, known_number};
ghost use Rattle.symbol_names.specs.Kept.{noted_view};

use crate::noted::ModuleNames;
use link_base::Memory;
use std::alloc::Global;

/// Stands where no number is noted. No name has it.
pub(crate) const NO_NUMBER: u32 = u32::MAX;

/// No number for each of `count` records.
pub(crate) fn no_records(alloc: Global, count: u32) -> Result<Vec<u32>, Memory>
    ensures { IfOk result (λ records. (names : List (List ℕ)) (bytes : List ℕ) → AreRecords names bytes records.items) }
{
    let records = vec![in alloc; NO_NUMBER; count as usize]?;
    Ok(records)
}

/// Notes the number of the name of a symbol at its record.
pub(crate) fn note_record(records: &mut Vec<u32>, symbol: u32, number: u32)
    ensures { (names : List (List ℕ)) (bytes : List ℕ) → NumbersSymbol names bytes symbol number
        → AreRecords names bytes records.old.items → AreRecords names bytes records.new.items }
{
    if (symbol as usize) < records.len() {
        records[symbol as usize] = number;
    }
}

/// The number of the name of a symbol, by the position of its module and its record, where one is noted.
pub fn noted_number(modules: &[ModuleNames<'_>], module: u32, index: u32) -> Option<u32>
    ensures { IfSome result (λ number. (names : List (List ℕ)) → All (NotesModule names) modules.now
        → NumbersSymbol names (module_at (map noted_view modules.now) «module»).bytes index number) }
{
    match modules.get(module as usize) {
        Some(noted) => number_at(&noted.records, index),
        None => None,
    }
}

/// The number that is noted at a record.
fn number_at(records: &[u32], index: u32) -> Option<u32>
    ensures { result ≡ known_number (slice_index_or records.now index NO_NUMBER) }
{
    let number = match records.get(index as usize) {
        Some(number) => *number,
        None => NO_NUMBER,
    };
    if number < NO_NUMBER {
        Some(number)
    } else {
        None
    }
}
