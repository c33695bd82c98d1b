//! What a table keeps of modules: their lists, with names by numbers.

use module_view::{Origin, Place};
use short_import::Import;

/// What a table keeps of a module.
#[derive(Drop)]
pub struct ModuleNames<'a> {
    pub origin: Origin<'a>,
    pub imported: Option<Import<'a>>,
    pub bytes: &'a [u8],
    pub definitions: Vec<NotedDefinition>,
    pub commons: Vec<NotedCommon>,
    pub weaks: Vec<NotedWeak>,
    pub alternates: Vec<NotedAlternate>,
    /// The number of the name of each symbol, by its record; `NO_NUMBER` where none is noted.
    pub records: Vec<u32>,
}

/// The lists of a module, with what it asks for.
#[derive(Drop)]
pub struct NotedLists {
    pub definitions: Vec<NotedDefinition>,
    pub commons: Vec<NotedCommon>,
    pub weaks: Vec<NotedWeak>,
    pub alternates: Vec<NotedAlternate>,
    pub records: Vec<u32>,
    pub asked: Vec<NotedAsked>,
}

/// A definition, by the number of its name.
#[derive(Clone, Copy)]
pub struct NotedDefinition {
    pub name: u32,
    pub place: Place,
}

/// A common, by the number of its name.
#[derive(Clone, Copy)]
pub struct NotedCommon {
    pub name: u32,
    pub symbol: u32,
    pub size: u32,
}

/// A weak external, by the number of its name.
#[derive(Clone, Copy)]
pub struct NotedWeak {
    pub name: u32,
    pub default: NotedDefault,
}

/// An alternate, by the numbers of its names.
#[derive(Clone, Copy)]
pub struct NotedAlternate {
    pub left: u32,
    pub right: u32,
}

/// A name that is asked for, by its number, and whether libraries are searched for it.
#[derive(Clone, Copy)]
pub struct NotedAsked {
    pub name: u32,
    pub search: bool,
}

/// What a weak external means where nothing defines its name.
#[derive(Clone, Copy)]
pub enum NotedDefault {
    /// What the name of a number means.
    Name(u32),
    /// A place in a section of its module.
    Place { section: u32, value: u32 },
    /// A number.
    Absolute(u32),
    Nothing,
}
