//! How a file is opened as a module.

ghost use Rattle.std.specs.Prelude.{◌≡◌, ◌<◌, ◌^◌, ◌-◌, length, Some, None, IfOk, OnOk, IfErr};
ghost use Rattle.module_view.specs.ImportModule.{no_object, import_in};
ghost use Rattle.module_view.specs.ModuleParts.{view_of, view_with};
ghost use Rattle.module_view.specs.Opening.{file_error, import_error, opening_error, RefusesToOpen};

use crate::aux_faults::judge_aux;
use crate::directive_list::read_directives;
use crate::error::ModuleError;
use crate::first_bytes::is_short_import;
use crate::import::{no_object, nothing};
use crate::input_module::{Content, Module, ObjectLists, Origin};
use crate::open_import::OpenImport;
use crate::sections::judge_sections;
use crate::symbols::read_symbols;
use coff_object::{LongTexts, Object, form_shown};
use std::alloc::Global;

/// The module with these bytes. A short import is refused for its first fault (`Import`), and then for a name of more than
/// 32,000 bytes (`Unsupported`). Other bytes are refused for the first of: a form that the first bytes show (`Unsupported`), a
/// fault of the object (`Object`), a section that the linker makes itself, a name of more than 32,000 bytes (`Unsupported`), a
/// fault of an auxiliary record (`Object`), and a malformed directive (`Directive`).
#[tactic(auto, unfolding(crate::specs::Opening::file_error))]
pub fn open_module<'a>(
    alloc: Global,
    origin: Origin<'a>,
    bytes: &'a [u8],
) -> Result<Module<'a>, ModuleError>
    requires { length bytes.now < 2 ^ 32 - 1 }
    ensures opened { IfOk result (λ m. m ≡ view_of origin.entry bytes.now) }
    ensures accepted { OnOk result (file_error bytes.now ≡ None) }
    ensures refused { IfErr result (RefusesToOpen (file_error bytes.now)) }
{
    if is_short_import(bytes) {
        open_import(origin, bytes)
    } else {
        open_object(alloc, origin, bytes)
    }
}

/// The module of a short import: an object of nothing, with what the import defines.
fn open_import<'a>(origin: Origin<'a>, bytes: &'a [u8]) -> Result<Module<'a>, ModuleError>
    ensures opened { IfOk result (λ m. m ≡ view_with origin.entry no_object (Some (import_in bytes.now))) }
    ensures accepted { OnOk result (import_error bytes.now ≡ None) }
    ensures refused { IfErr result (RefusesToOpen (import_error bytes.now)) }
{
    match OpenImport::read(bytes) {
        Ok(import) => Ok(Module {
            origin,
            bytes: no_object(),
            object: nothing(),
            content: Content::Import(import),
        }),
        Err(error) => Err(error),
    }
}

/// The module of an object.
fn open_object<'a>(
    alloc: Global,
    origin: Origin<'a>,
    bytes: &'a [u8],
) -> Result<Module<'a>, ModuleError>
    requires { length bytes.now < 2 ^ 32 - 1 }
    ensures opened { IfOk result (λ m. m ≡ view_with origin.entry bytes.now None) }
    ensures accepted { OnOk result (opening_error bytes.now ≡ None) }
    ensures refused { IfErr result (RefusesToOpen (opening_error bytes.now)) }
{
    if let Some(kind) = form_shown(bytes) {
        return Err(ModuleError::Unsupported(kind));
    }
    let object = match Object::open(bytes) {
        Ok(object) => object,
        Err(error) => return Err(ModuleError::Object(error)),
    };
    let texts = LongTexts::of(alloc, object.string_table())?;
    let sections = match judge_sections(&object, &texts) {
        Ok(sections) => sections,
        Err(kind) => return Err(ModuleError::Unsupported(kind)),
    };
    let lists = match read_symbols(alloc, &object, &texts) {
        Ok(lists) => lists,
        Err(error) => return Err(error),
    };
    let comdats = match judge_aux(alloc, &object, &lists, sections.has_comdat) {
        Ok(comdats) => comdats,
        Err(error) => return Err(error),
    };
    let directives = match read_directives(alloc, &object, sections.has_directives) {
        Ok(directives) => directives,
        Err(error) => return Err(error),
    };
    Ok(Module {
        origin,
        bytes,
        object,
        content: Content::Object(ObjectLists {
            lists,
            comdats,
            directives,
            has_resources: sections.has_resources,
        }),
    })
}
