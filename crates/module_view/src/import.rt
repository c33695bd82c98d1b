//! Short imports, each of which goes as an object of nothing.

ghost use Rattle.std.specs.Prelude.{◌≡◌, ◌≤◌, ◌++◌, length, take, None, IfOk, OnOk, IfErr};
ghost use Rattle.link_base.specs.NameText.{import_prefix};
ghost use Rattle.short_import.specs.ShortImport.{symbol_of};
ghost use Rattle.short_import.specs.ImportFaults.{import_fault};
ghost use Rattle.module_view.specs.ImportModule.{import_in, import_definitions, no_object};
ghost use Rattle.module_view.specs.Opening.{import_error, is_long, RefusesToOpen};

use crate::definition::{Definition, Place};
use crate::error::ModuleError;
use arrayvec::ArrayVec;
use coff_object::Object;
use link_base::{Kind, NAME_LIMIT, Name, slice_in};
use short_import::{Import, ImportKind};

/// Where the symbol stands: behind the header.
const SYMBOL_OFFSET: usize = 20;

/// The short import in these bytes. It is refused for its fault, or where the symbol or the name of the DLL has more than 32,000
/// bytes.
#[tactic(auto, unfolding(crate::specs::Opening::import_error))]
pub(crate) fn read_import(bytes: &[u8]) -> Result<Import<'_>, ModuleError>
    ensures read { IfOk result (λ import. import ≡ import_in bytes.now) }
    ensures well_formed { OnOk result (import_fault bytes.now ≡ None) }
    ensures accepted { OnOk result (import_error bytes.now ≡ None) }
    ensures refused { IfErr result (RefusesToOpen (import_error bytes.now)) }
{
    let import = match Import::read(bytes) {
        Ok(import) => import,
        Err(fault) => return Err(ModuleError::Import(fault)),
    };
    if is_long(&import.symbol) || is_long(&import.dll) {
        return Err(ModuleError::Unsupported(Kind::LongName));
    }
    Ok(import)
}

/// What the short import in these bytes defines: so many as `definition_count` says count.
#[tactic(auto, unfolding(crate::specs::ImportModule::import_definitions))]
pub(crate) fn definitions_by<'a>(
    bytes: &'a [u8],
    import: &Import<'a>,
) -> ArrayVec<Definition<'a>, 2>
    requires well_formed { import_fault bytes.now ≡ None }
    requires read { import.now ≡ import_in bytes.now }
    ensures { take (length (import_definitions import.now)) result.items ≡ import_definitions import.now }
{
    let entry = Definition {
        name: entry_name(bytes, import.symbol.len()),
        symbol: 0,
        place: Place::Slot,
    };
    let place = match import.kind {
        ImportKind::Code => Place::Thunk,
        ImportKind::Data => Place::Slot,
        ImportKind::Const => Place::Slot,
    };
    ArrayVec::from_array_in((), [entry, named(import, place)])
}

/// How many definitions count: of data the symbol itself is none.
#[tactic(auto, unfolding(crate::specs::ImportModule::import_definitions))]
pub(crate) fn definition_count(import: &Import<'_>) -> usize
    ensures count { result ≡ length (import_definitions import.now) }
    ensures few { result ≤ 2 }
{
    match import.kind {
        ImportKind::Code => 2,
        ImportKind::Data => 1,
        ImportKind::Const => 2,
    }
}

/// The definition of the symbol itself.
fn named<'a>(import: &Import<'a>, place: Place) -> Definition<'a>
    ensures { result ≡ record { name = import.now.symbol; symbol = 1; place = place } }
{
    Definition {
        name: import.symbol.again(),
        symbol: 1,
        place,
    }
}

/// The name of the entry of the import address table, for a symbol of this length.
fn entry_name(bytes: &[u8], len: usize) -> Name<'_>
    requires well_formed { import_fault bytes.now ≡ None }
    requires len { len ≡ length (symbol_of bytes.now) }
    ensures { result ≡ import_prefix ++ symbol_of bytes.now }
{
    Name::import(slice_in(bytes, SYMBOL_OFFSET, len))
}

/// The bytes of an object of nothing: the machine, and a header that counts no sections and no symbols.
#[tactic(auto, unfolding(crate::specs::ImportModule::no_object))]
pub(crate) fn no_object() -> &'static [u8]
    ensures { result.now ≡ no_object }
{
    b"\x64\x86\x00\x00\x00\x00\x00\x00\x00\x00\x00\x00\x00\x00\x00\x00\x00\x00\x00\x00"
}

/// The object of nothing.
pub(crate) fn nothing<'a>() -> Object<'a>
    ensures { result ≡ no_object }
{
    Object::of(no_object())
}

/// Whether a name is too long.
fn is_long(name: &Name<'_>) -> bool
    ensures { result ≡ is_long name.now }
{
    name.len() > NAME_LIMIT
}
