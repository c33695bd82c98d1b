//! A module, as its lists beside a view of its bytes.

ghost use Rattle.std.specs.Prelude.{◌≡◌, [], Some, map, IfSome};
ghost use Rattle.std.specs.Option.{option_copied};
ghost use Rattle.coff_records.specs.ObjectFile.{starts_symbol};
ghost use Rattle.module_view.specs.ImportModule.{module_definitions};
ghost use Rattle.module_view.specs.SymbolLists.{definitions_of, references_of, weaks_of, commons_of};
ghost use Rattle.directives.specs.Said.{said};
ghost use Rattle.module_view.specs.ModuleDirectives.{module_directives};
ghost use Rattle.module_view.specs.Opening.{IsOpened};
ghost use Rattle.module_view.specs.Resources.{has_resources};
ghost use Rattle.module_view.specs.Steps.{KeepsStarts};

use crate::comdat_choice::ComdatChoice;
use crate::definition::{Common, Definition};
use crate::open_import::OpenImport;
use crate::reference::{Reference, Weak};
use crate::symbols::SymbolLists;
use coff_aux::is_start;
use coff_object::Object;
use directives::Directive;
use link_base::Name;
use short_import::Import;
use std::marker::Model;

/// Where a module comes from: a file, or a member of one.
#[derive(Drop)]
pub struct Origin<'a> {
    pub file: Name<'a>,
    pub member: Option<Name<'a>>,
}

/// What takes part in a link: an object, or a short import, which goes as an object of nothing.
#[derive(Drop)]
pub struct Module<'a> {
    pub(crate) origin: Origin<'a>,
    pub(crate) bytes: &'a [u8],
    pub(crate) object: Object<'a>,
    pub(crate) content: Content<'a>,
}

/// What was read of a module: the lists of its object, or the short import, whose object has none.
#[derive(Drop)]
pub(crate) enum Content<'a> {
    Object(ObjectLists<'a>),
    Import(OpenImport<'a>),
}

/// The lists of an object.
#[derive(Drop)]
pub(crate) struct ObjectLists<'a> {
    pub(crate) lists: SymbolLists<'a>,
    /// What each section says of itself as a COMDAT section, by the numbers of sections less 1: nothing where none is one.
    pub(crate) comdats: Vec<Option<ComdatChoice>>,
    pub(crate) directives: Vec<Directive<'a>>,
    /// One of the sections holds resources.
    pub(crate) has_resources: bool,
}

impl<'a> Model for Module<'a> {
    ghost use Rattle.module_view.specs.Module.{ModuleView};

    ghost Value = { ModuleView };

    ghost use Rattle.module_view.specs.ModuleParts.{view_with, imported_by, KeepsContent};

    ghost view = { λ m. view_with m.origin m.bytes.now (imported_by m.content) };

    ghost invariant = { λ m. KeepsContent m.bytes.now m.object m.content };
}

impl<'a> Module<'a> {
    /// The file, and the member where it is one.
    pub fn origin(&self) -> Origin<'a>
        ensures file { result.file ≡ self.now.file }
        ensures member { result.member ≡ self.now.member }
    {
        Origin {
            file: self.origin.file.again(),
            member: match &self.origin.member {
                Some(member) => Some(member.again()),
                None => None,
            },
        }
    }

    /// The bytes of the object.
    pub fn bytes(&self) -> &'a [u8]
        ensures bytes { result.now ≡ self.now.bytes }
        ensures opened { IsOpened self.now }
    {
        self.bytes
    }

    /// The object, which each module has: that of a short import is one of nothing.
    pub fn object(&self) -> Option<&Object<'a>>
        ensures object { option_copied result ≡ Some self.now.bytes }
        ensures opened { IsOpened self.now }
    {
        Some(&self.object)
    }

    /// The short import, where it is one.
    pub fn import(&self) -> Option<&Import<'a>>
        ensures { option_copied result ≡ self.now.imported }
    {
        match &self.content {
            Content::Object(_) => None,
            Content::Import(open) => Some(open.import()),
        }
    }

    /// An equal short import, where it is one. Then the object has no symbol that defines a name.
    pub fn import_again(&self) -> Option<Import<'a>>
        ensures imported { result ≡ self.now.imported }
        ensures alone { IfSome result (λ import. definitions_of self.now.bytes ≡ []) }
    {
        match &self.content {
            Content::Object(_) => None,
            Content::Import(open) => Some(open.import().again()),
        }
    }

    /// What it defines, in the order of its symbols. A short import defines its entry of the import address table, and by its
    /// kind the symbol.
    pub fn definitions(&self) -> &[Definition<'a>]
        ensures definitions { result.now ≡ module_definitions self.now }
        ensures opened { IsOpened self.now }
    {
        match &self.content {
            Content::Object(parts) => &parts.lists.definitions,
            Content::Import(open) => open.definitions(),
        }
    }

    /// What the symbols of its object define, in their order: nothing, where it is a short import.
    pub fn symbol_definitions(&self) -> &[Definition<'a>]
        ensures definitions { result.now ≡ definitions_of self.now.bytes }
        ensures opened { IsOpened self.now }
    {
        match &self.content {
            Content::Object(parts) => &parts.lists.definitions,
            Content::Import(_) => &[],
        }
    }

    /// What it names and does not define, in the order of its symbols.
    pub fn references(&self) -> &[Reference<'a>]
        ensures references { result.now ≡ references_of self.now.bytes }
        ensures opened { IsOpened self.now }
    {
        match &self.content {
            Content::Object(parts) => &parts.lists.references,
            Content::Import(_) => &[],
        }
    }

    /// Its weak externals, in the order of its symbols.
    pub fn weaks(&self) -> &[Weak<'a>]
        ensures weaks { result.now ≡ weaks_of self.now.bytes }
        ensures opened { IsOpened self.now }
    {
        match &self.content {
            Content::Object(parts) => &parts.lists.weaks,
            Content::Import(_) => &[],
        }
    }

    /// Its commons, in the order of its symbols.
    pub fn commons(&self) -> &[Common<'a>]
        ensures commons { result.now ≡ commons_of self.now.bytes }
        ensures opened { IsOpened self.now }
    {
        match &self.content {
            Content::Object(parts) => &parts.lists.commons,
            Content::Import(_) => &[],
        }
    }

    /// Its directives, in the order of its sections and of their texts.
    pub fn directives(&self) -> &[Directive<'a>]
        ensures directives { map said result.now ≡ module_directives self.now.bytes }
        ensures opened { IsOpened self.now }
    {
        match &self.content {
            Content::Object(parts) => &parts.directives,
            Content::Import(_) => &[],
        }
    }

    /// Whether a section of the object holds resources, by its base name.
    pub fn has_resources(&self) -> bool
        ensures { result ≡ has_resources self.now.bytes }
    {
        match &self.content {
            Content::Object(parts) => parts.has_resources,
            Content::Import(_) => false,
        }
    }

    /// Whether a symbol starts at a record. In a module without weak externals, none of whose symbols names a record, it is
    /// looked for from the first symbol on.
    pub fn is_symbol(&self, j: u32) -> bool
        ensures { result ≡ starts_symbol self.now.bytes j }
    {
        match &self.content {
            Content::Object(parts) => is_symbol_in(&self.object, &parts.lists, j),
            Content::Import(_) => is_start(&self.object, j),
        }
    }
}

/// Whether a symbol of an object starts at a record.
fn is_symbol_in(object: &Object<'_>, lists: &SymbolLists<'_>, j: u32) -> bool
    requires { KeepsStarts object.now lists.now.weaks.items lists.now.starts.items }
    ensures { result ≡ starts_symbol object.now j }
{
    if lists.weaks.is_empty() {
        return is_start(object, j);
    }
    match lists.starts.get(j as usize) {
        Some(starts) => *starts,
        None => false,
    }
}
