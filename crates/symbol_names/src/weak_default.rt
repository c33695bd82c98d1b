//! What a weak external means where nothing defines its name.

ghost use Rattle.std.specs.Prelude.{◌≡◌, ◌≤◌, true};
ghost use Rattle.coff_records.specs.ObjectFile.{section_total, starts_symbol};
ghost use Rattle.symbol_names.specs.Defaults.{is_inside, is_global, place_default, local_default, symbol_default, default_of};

use coff_aux::is_section_number;
use coff_object::{Object, SymbolRecord};
use link_base::Name;
use link_base::pe_format::{
    SYM_ABSOLUTE, SYM_CLASS_EXTERNAL, SYM_CLASS_WEAK_EXTERNAL, SYM_UNDEFINED,
};
use module_view::Module;

/// What a weak external means where nothing defines its name.
#[derive(Drop)]
pub enum WeakDefault<'a> {
    /// What a name means.
    Name(Name<'a>),
    /// A place in a section of its module.
    Place { section: u32, value: u32 },
    /// A number.
    Absolute(u32),
    Nothing,
}

/// What a weak external of the module means, by the record that it names.
#[tactic(auto, unfolding(crate::specs::Defaults::default_of))]
pub(crate) fn default_of<'a>(module: &Module<'a>, tag: u32) -> WeakDefault<'a>
    ensures { result ≡ default_of «module».now.bytes tag }
{
    if !module.is_symbol(tag) {
        return WeakDefault::Nothing;
    }
    match module.object() {
        Some(object) => symbol_default(object, &object.symbol_record(tag)),
        None => WeakDefault::Nothing,
    }
}

/// What a symbol of an object says.
#[tactic(auto, unfolding(crate::specs::Defaults::symbol_default))]
fn symbol_default<'a>(object: &Object<'a>, symbol: &SymbolRecord<'a>) -> WeakDefault<'a>
    ensures { result ≡ symbol_default object.now symbol.now }
{
    if is_global(symbol) {
        return WeakDefault::Name(symbol.name());
    }
    local_default(object, symbol)
}

/// Whether other modules can name a symbol.
fn is_global(symbol: &SymbolRecord<'_>) -> bool
    ensures { result ≡ is_global symbol.now }
{
    let class = symbol.class();
    class == SYM_CLASS_EXTERNAL || class == SYM_CLASS_WEAK_EXTERNAL
}

/// What a symbol says that only its own module can name.
fn local_default<'a>(object: &Object<'a>, symbol: &SymbolRecord<'a>) -> WeakDefault<'a>
    ensures { result ≡ local_default object.now symbol.now }
{
    let section = symbol.section();
    if section == SYM_ABSOLUTE {
        return WeakDefault::Absolute(symbol.value());
    }
    if section > SYM_UNDEFINED {
        return place_default(object, section as u32, symbol.value());
    }
    WeakDefault::Nothing
}

/// A place in a section, where it is inside.
fn place_default<'a>(object: &Object<'a>, section: u32, value: u32) -> WeakDefault<'a>
    ensures { result ≡ place_default object.now section value }
{
    if is_inside(object, section, value) {
        WeakDefault::Place { section, value }
    } else {
        WeakDefault::Nothing
    }
}

/// Whether an offset in a section is inside: the section is there, and its end does not come before.
fn is_inside(object: &Object<'_>, section: u32, value: u32) -> bool
    ensures { result ≡ is_inside object.now section value }
{
    is_section_number(object.section_count(), section) && value <= object.section_size(section)
}
