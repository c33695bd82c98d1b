//! A short import, as a view of its bytes.

ghost use Rattle.std.specs.Prelude.{◌≡◌, IfOk, IfErr, is_ok, is_none, Some};
ghost use Rattle.short_import.specs.ShortImport.{kind_of_type, by_of_type, symbol_of, dll_of, import_kind, import_by};
ghost use Rattle.short_import.specs.ImportFaults.{import_fault};

use crate::constants::{
    IMPORT_CODE, IMPORT_DATA, IMPORT_NAME, IMPORT_NAME_NOPREFIX, IMPORT_ORDINAL,
};
use crate::decoration::{no_prefix, undecorated};
use crate::fields::{import_type, name_type, ordinal_or_hint};
use crate::texts::texts_in;
use link_base::{ImpFault, Name};

/// A short import: one symbol that a DLL exports. The names are borrowed from the bytes.
#[derive(Drop)]
pub struct Import<'a> {
    pub symbol: Name<'a>,
    pub dll: Name<'a>,
    pub kind: ImportKind,
    pub by: ImportBy<'a>,
}

/// What is imported (PE Format, "Import Type").
#[derive(Clone, Copy, Debug, PartialEq, Eq)]
pub enum ImportKind {
    /// Code: a call can go through a thunk.
    Code,
    /// Data.
    Data,
    /// A constant.
    Const,
}

/// How the loader finds the export in the DLL (PE Format, "Import Name Type").
#[derive(Drop, PartialEq)]
pub enum ImportBy<'a> {
    /// By its ordinal.
    Ordinal(u16),
    /// By its name. The hint is where the loader looks first in the DLL's table of names.
    Named { hint: u16, name: Name<'a> },
}

impl<'a> Import<'a> {
    /// The short import in these bytes. What stands behind its data is passed over, and so is what stands in
    /// them behind the DLL's NUL. A malformed one is refused for the first fault, in the order of `ImpFault`:
    /// `Text` comes for the symbol or, behind it, the DLL. The first six bytes, which tell a short import
    /// from an object, and the time stamp are not looked at: the caller judged the former. An import name
    /// that its rule leaves empty, as that of the symbol `_`, is allowed. (PE Format, "Import Library Format".)
    #[tactic(auto, unfolding(crate::specs::ShortImport::import_kind, crate::specs::ShortImport::import_by))]
    pub fn read(bytes: &'a [u8]) -> Result<Import<'a>, ImpFault>
        ensures symbol { IfOk result (λ import. import.symbol ≡ symbol_of bytes.now) }
        ensures dll { IfOk result (λ import. import.dll ≡ dll_of bytes.now) }
        ensures kind { IfOk result (λ import. import.kind ≡ import_kind bytes.now) }
        ensures by { IfOk result (λ import. import.by ≡ import_by bytes.now) }
        ensures refused { IfErr result (λ fault. import_fault bytes.now ≡ Some fault) }
        ensures reads { is_ok result ≡ is_none (import_fault bytes.now) }
    {
        let texts = texts_in(bytes)?;
        Ok(Import {
            symbol: Name::of(texts.symbol),
            dll: Name::of(texts.dll),
            kind: kind_of_type(import_type(bytes)),
            by: by_of_type(name_type(bytes), ordinal_or_hint(bytes), texts.symbol),
        })
    }

    /// An equal import, which borrows from the same bytes.
    pub fn again(&self) -> Import<'a>
        ensures { result ≡ self.now }
    {
        Import {
            symbol: self.symbol.again(),
            dll: self.dll.again(),
            kind: self.kind,
            by: self.by.again(),
        }
    }
}

impl<'a> ImportBy<'a> {
    /// The same, which borrows from the same bytes.
    fn again(&self) -> ImportBy<'a>
        ensures { result ≡ self.now }
    {
        match self {
            ImportBy::Ordinal(ordinal) => ImportBy::Ordinal(*ordinal),
            ImportBy::Named { hint, name } => ImportBy::Named {
                hint: *hint,
                name: name.again(),
            },
        }
    }
}

fn kind_of_type(number: u16) -> ImportKind
    ensures { result ≡ kind_of_type number }
{
    match number {
        IMPORT_CODE => ImportKind::Code,
        IMPORT_DATA => ImportKind::Data,
        _ => ImportKind::Const,
    }
}

/// How the loader finds a symbol, by the name type and the field that is an ordinal or a hint.
fn by_of_type(number: u16, field: u16, symbol: &[u8]) -> ImportBy<'_>
    ensures { result ≡ by_of_type number field symbol.now }
{
    match number {
        IMPORT_ORDINAL => ImportBy::Ordinal(field),
        IMPORT_NAME => named(field, symbol),
        IMPORT_NAME_NOPREFIX => named(field, no_prefix(symbol)),
        _ => named(field, undecorated(symbol)),
    }
}

fn named(hint: u16, name: &[u8]) -> ImportBy<'_>
    ensures { result ≡ ImportBy.Named hint name.now }
{
    ImportBy::Named {
        hint,
        name: Name::of(name),
    }
}
