//! The directives of a module.

ghost use Rattle.std.specs.Prelude.{◌≡◌, ◌≤◌, ◌++◌, ◌∷◌, [], None, is_some, map, filter_map, option_map, IfOk, OnOk, IfErr};
ghost use Rattle.std.specs.List.{list_any};
ghost use Rattle.link_base.specs.Refusals.{first_standing};
ghost use Rattle.coff_records.specs.ObjectFile.{section_total};
ghost use Rattle.directives.specs.Said.{said};
ghost use Rattle.directives.specs.Words.{directives_of};
ghost use Rattle.module_view.specs.ModuleDirectives.{sections_in, has_directives_by, holds_directives, sections_say, module_directives, bad_directive, well_formed, malformed};
ghost use Rattle.module_view.specs.Opening.{bad_directive_error, directive_error, RefusesToOpen};

use crate::error::ModuleError;
use coff_object::{Object, Section};
use directives::{Directive, Directives};
use link_base::{Memory, Name};
use std::alloc::Global;

/// Whether a section holds directives: it has their name, and data.
pub(crate) fn holds_directives(section: &Section<'_>) -> bool
    ensures { result ≡ has_directives_by section.now.name (is_some section.now.body) }
{
    section.name == Name::of(b".drectve") && section.body.is_some()
}

/// The directives of an object, in the order of its sections and of their texts. The first that is malformed is refused. They
/// take no more room than they need.
pub(crate) fn read_directives<'a>(
    alloc: Global,
    object: &Object<'a>,
    has_any: bool,
) -> Result<Vec<Directive<'a>>, ModuleError>
    requires { has_any ≡ list_any (holds_directives object.now) (sections_in object.now) }
    ensures directives { IfOk result (λ list. map said list.items ≡ module_directives object.now) }
    ensures accepted { OnOk result (bad_directive object.now ≡ None) }
    ensures refused { IfErr result (RefusesToOpen (directive_error object.now)) }
{
    if !has_any {
        return Ok(Vec::new(alloc));
    }
    let mut list = read_sections(alloc, object)?;
    list.shrink_to_fit();
    Ok(list)
}

/// The directives of all sections of an object.
fn read_sections<'a>(alloc: Global, object: &Object<'a>) -> Result<Vec<Directive<'a>>, ModuleError>
    ensures directives { IfOk result (λ list. map said list.items ≡ module_directives object.now) }
    ensures accepted { OnOk result (bad_directive object.now ≡ None) }
    ensures refused { IfErr result (RefusesToOpen (directive_error object.now)) }
{
    let mut list = Vec::new(alloc);
    for index in 0..object.section_count() {
        append_section(&mut list, object, index + 1)?;
    }
    Ok(list)
}

/// Appends the directives of a section, where it holds any.
fn append_section<'a>(
    list: &mut Vec<Directive<'a>>,
    object: &Object<'a>,
    section: u32,
) -> Result<(), ModuleError>
    requires first { 1 ≤ section }
    requires last { section ≤ section_total object.now }
    ensures directives { OnOk result (map said list.new.items
        ≡ map said list.old.items ++ filter_map well_formed (sections_say object.now (section ∷ []))) }
    ensures accepted { OnOk result (first_standing (map malformed (sections_say object.now (section ∷ []))) ≡ None) }
    ensures refused { IfErr result (RefusesToOpen (option_map bad_directive_error (first_standing (map malformed (sections_say object.now (section ∷ [])))))) }
{
    let section = object.section(section);
    if !holds_directives(&section) {
        return Ok(());
    }
    match section.body {
        Some(text) => append(list, text),
        None => Ok(()),
    }
}

/// Appends the directives of a text, up to the first that is malformed.
fn append<'a>(list: &mut Vec<Directive<'a>>, text: &'a [u8]) -> Result<(), ModuleError>
    ensures directives { OnOk result (map said list.new.items
        ≡ map said list.old.items ++ filter_map well_formed (directives_of text.now)) }
    ensures accepted { OnOk result (first_standing (map malformed (directives_of text.now)) ≡ None) }
    ensures refused { IfErr result (RefusesToOpen (option_map bad_directive_error (first_standing (map malformed (directives_of text.now))))) }
{
    for item in Directives::new(text) {
        match item {
            Ok(directive) => keep(list, directive)?,
            Err(bad) => return Err(ModuleError::Directive { at: bad.at }),
        }
    }
    Ok(())
}

/// Appends a directive.
fn keep<'a>(list: &mut Vec<Directive<'a>>, directive: Directive<'a>) -> Result<(), Memory>
    ensures { OnOk result (list.new.items ≡ list.old.items ++ directive.entry ∷ []) }
{
    list.push(directive)?;
    Ok(())
}
