//! The import library of a link.

ghost use Rattle.std.specs.Prelude.{◌≡◌, None, option_map, IfOk, OnOk, IfErr, IsTrue};
ghost use Rattle.link_base.specs.Refusals.{RefusesFor};
ghost use Rattle.export_tables.specs.Ordinals.{ordinal_fault};
ghost use Rattle.implib.specs.Rows.{DLL_LIMIT, IsText};
ghost use Rattle.link_words.specs.Outcome.{options_said};
ghost use Rattle.link_exports.specs.Exports.{AreTold};
ghost use Rattle.link_library.specs.LinkLibrary.{asked_library, library_fault};

use crate::rows::library_rows;
use implib::{import_library, library_length};
use link_base::{FILE_LIMIT, Fault, NAME_LIMIT, Name, Refusal};
use link_exports::LinkExports;
use link_words::Options;
use std::alloc::Global;

/// The name of a DLL is at most so long: that of an image, with an extension behind a name that has none.
const DLL_LIMIT: usize = NAME_LIMIT + 4;

/// The import library of a link with these exports, whose ordinals are not refused, where one is asked for; none where all of
/// them are private, or there are none (PE Format, "Import Library Format"). It has the time of the image. A name of the DLL
/// that is empty or has a NUL, which an accepted command line with an import library does not give, is want of memory.
///
/// # Errors
///
/// `Fault` with `ImplibTooLarge` where it would have more than 268,435,456 bytes.
#[tactic(auto, unfolding(crate::specs::LinkLibrary::asked_library, crate::specs::LinkLibrary::library_fault))]
pub fn link_library<'a>(
    alloc: Global,
    options: &Options<'a>,
    exports: &LinkExports<'a>,
) -> Result<Option<Vec<u8>>, Refusal<'a>>
    requires told { AreTold exports.now }
    requires unrefused { exports.now.fault ≡ None }
    requires numbered { ordinal_fault exports.now.rows ≡ None }
    ensures library { IfOk result (λ library. option_map (λ bytes. bytes.items) library ≡ asked_library (options_said options.now) exports.now) }
    ensures accepted { OnOk result (library_fault (options_said options.now) exports.now ≡ None) }
    ensures refused { IfErr result (RefusesFor (library_fault (options_said options.now) exports.now)) }
{
    if options.implib.is_none() {
        return Ok(None);
    }
    let rows = library_rows(alloc, exports)?;
    if rows.is_empty() {
        return Ok(None);
    }
    let dll = exports.dll();
    if !is_text(&dll) {
        return Err(Refusal::Memory);
    }
    let time = exports.time();
    let size = library_length(&rows, dll.again());
    if size > FILE_LIMIT {
        return Err(Refusal::Fault(Fault::ImplibTooLarge { size }));
    }
    let bytes = import_library(alloc, &rows, dll, time)?;
    Ok(Some(bytes))
}

/// Whether a name of a DLL can stand in a library: it has some bytes, not too many, and no NUL.
fn is_text(dll: &Name<'_>) -> bool
    ensures { IsTrue result → IsText DLL_LIMIT dll.now }
{
    !dll.is_empty() && dll.len() <= DLL_LIMIT && !dll.rest().contains(&0)
}
