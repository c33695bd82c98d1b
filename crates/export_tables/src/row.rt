//! An export that is to be written.

ghost use Rattle.std.specs.Prelude.{◌≡◌};

use link_base::Name;

/// An export: its name, the ordinal that it asks for, whether it is found by its ordinal alone, and what it exports.
#[derive(Drop)]
pub struct ExportRow<'a> {
    pub name: Name<'a>,
    pub ordinal: Option<u16>,
    pub noname: bool,
    pub what: ExportTo<'a>,
}

/// What a row exports.
#[derive(Drop)]
pub enum ExportTo<'a> {
    /// What stands at this RVA.
    Rva(u32),
    /// What another image exports: the text of a forwarder, as `DLL.name`.
    Forward(Name<'a>),
}

impl<'a> ExportTo<'a> {
    /// The same.
    pub(crate) fn again(&self) -> ExportTo<'a>
        ensures { result ≡ self.now }
    {
        match self {
            ExportTo::Rva(rva) => ExportTo::Rva(*rva),
            ExportTo::Forward(text) => ExportTo::Forward(text.again()),
        }
    }
}
