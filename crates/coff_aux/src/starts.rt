//! At which records of an object a symbol starts.

ghost use Rattle.std.specs.Prelude.{◌≡◌, IfOk};
ghost use Rattle.coff_records.specs.ObjectFile.{starts_symbol};
ghost use Rattle.coff_aux.specs.Steps.{HasStarts};

use coff_object::Object;
use link_base::Memory;
use std::alloc::Global;

/// For each symbol record of an object, whether a symbol starts there.
pub fn symbol_starts(alloc: Global, object: &Object<'_>) -> Result<Vec<bool>, Memory>
    ensures { IfOk result (λ starts. HasStarts object.now starts.items) }
{
    let mut starts = vec![in alloc; false; object.record_count() as usize]?;
    for (index, _) in object.symbols() {
        starts[index as usize] = true;
    }
    Ok(starts)
}

/// Whether a symbol starts at a record. It is looked for from the first symbol on.
pub fn is_start(object: &Object<'_>, j: u32) -> bool
    ensures { result ≡ starts_symbol object.now j }
{
    for (index, _) in object.symbols() {
        if index == j {
            return true;
        }
    }
    false
}
