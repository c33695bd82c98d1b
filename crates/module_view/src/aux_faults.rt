//! What is wrong with the auxiliary records of an object.

ghost use Rattle.std.specs.Prelude.{◌≡◌, ◌<◌, ◌^◌, None, length, option_map, IfOk, OnOk, IfErr};
ghost use Rattle.link_base.specs.declared.kinds.object.ObjFault.TheVariants as kind;
ghost use Rattle.coff_records.specs.ObjectFile.{starts_symbol, symbol_entries};
ghost use Rattle.coff_object.specs.ObjectFaults.{object_fault, first_of};
ghost use Rattle.coff_aux.specs.Comdats.{has_comdat};
ghost use Rattle.coff_aux.specs.AuxFaults.{aux_fault, is_bad_weak};
ghost use Rattle.module_view.specs.Choices.{AreChoices};
ghost use Rattle.module_view.specs.SymbolLists.{definitions_of, weaks_of};
ghost use Rattle.module_view.specs.Steps.{KeepsStarts};
ghost use Rattle.module_view.specs.declared.error.ModuleError.TheVariants as error;
ghost use Rattle.module_view.specs.Opening.{RefusesToOpen};

use crate::comdat_choice::{ComdatChoice, choices_in_order, choices_of};
use crate::error::ModuleError;
use crate::reference::Weak;
use crate::symbols::SymbolLists;
use coff_aux::{comdat_fault, first_bad_weak, section_symbols};
use coff_object::{ObjError, Object};
use link_base::ObjFault;
use std::alloc::Global;

/// Judges the auxiliary records of weak externals and of COMDAT sections, where there are any. It gives what those sections
/// say.
pub(crate) fn judge_aux(
    alloc: Global,
    object: &Object<'_>,
    lists: &SymbolLists<'_>,
    any_comdat: bool,
) -> Result<Vec<Option<ComdatChoice>>, ModuleError>
    requires sound { object_fault object.now ≡ None }
    requires short { length object.now < 2 ^ 32 }
    requires definitions { lists.now.definitions.items ≡ definitions_of object.now }
    requires weaks { lists.now.weaks.items ≡ weaks_of object.now }
    requires starts { KeepsStarts object.now lists.now.weaks.items lists.now.starts.items }
    requires comdat { any_comdat ≡ has_comdat object.now }
    ensures comdats { IfOk result (λ choices. AreChoices object.now (definitions_of object.now) choices.items) }
    ensures accepted { OnOk result (aux_fault object.now ≡ None) }
    ensures refused { IfErr result (RefusesToOpen (option_map error.Object (aux_fault object.now))) }
{
    if let Some(index) = weak_fault(object, &lists.weaks, &lists.starts) {
        return Err(aux_error(index));
    }
    if !any_comdat {
        return Ok(Vec::new(alloc));
    }
    let symbols = section_symbols(alloc, object)?;
    if let Some(choices) = choices_in_order(alloc, object, &symbols, &lists.definitions)? {
        return Ok(choices);
    }
    match comdat_fault(alloc, object, &symbols)? {
        Some(error) => Err(ModuleError::Object(error)),
        None => {
            let choices = choices_of(alloc, object, &symbols, &lists.definitions)?;
            Ok(choices)
        }
    }
}

fn aux_error(index: u32) -> ModuleError
    ensures { result ≡ error.Object (record { kind = kind.Aux; index = index }) }
{
    ModuleError::Object(ObjError {
        kind: ObjFault::Aux,
        index,
    })
}

/// The first of the weak externals of an object whose record is malformed.
fn weak_fault(object: &Object<'_>, weaks: &[Weak<'_>], starts: &[bool]) -> Option<u32>
    requires weaks { weaks.now ≡ weaks_of object.now }
    requires starts { KeepsStarts object.now weaks.now starts.now }
    ensures { result ≡ first_of (is_bad_weak object.now) (symbol_entries object.now) }
{
    if weaks.is_empty() {
        return None;
    }
    first_bad_weak(object, starts)
}
