//! What one pass over the sections of an object shows.

ghost use Rattle.std.specs.Prelude.{◌≡◌, ◌≤◌, take, true, false, None, Some, IfOk, OnOk, IfErr};
ghost use Rattle.section_rules.specs.SoughtNames.{BeginsOtherwise};
ghost use Rattle.coff_records.specs.ObjectFile.{section_total, section_name_of, string_table};
ghost use Rattle.coff_aux.specs.Comdats.{has_comdat};
ghost use Rattle.std.specs.List.{list_any};
ghost use Rattle.module_view.specs.ModuleDirectives.{sections_in, holds_directives};
ghost use Rattle.module_view.specs.Resources.{has_resources};
ghost use Rattle.module_view.specs.Opening.{is_long};
ghost use Rattle.module_view.specs.Steps.{section_form, Shows};

use crate::directive_list::holds_directives;
use coff_aux::is_comdat;
use coff_object::{LongTexts, Object};
use link_base::Kind;
use section_rules::{
    LINKER_NAME_START, NAME_START, begins_sought, is_linker_section, is_resources, may_be_sought,
};

/// What a section shows.
#[derive(Clone, Copy)]
struct SectionForm {
    is_linker: bool,
    is_long: bool,
    is_comdat: bool,
    holds_directives: bool,
    holds_resources: bool,
}

/// What the sections of an object show.
#[derive(Clone, Copy)]
pub(crate) struct SectionForms {
    /// One of them is a COMDAT.
    pub(crate) has_comdat: bool,
    /// One of them holds directives.
    pub(crate) has_directives: bool,
    /// One of them holds resources.
    pub(crate) has_resources: bool,
}

/// Judges the sections of an object. It is refused where one is a section that the linker makes itself, and else where one
/// has a name that is too long.
#[tactic(auto, unfolding(crate::specs::Steps::section_form, crate::specs::Resources::has_resources))]
pub(crate) fn judge_sections(
    object: &Object<'_>,
    texts: &LongTexts<'_>,
) -> Result<SectionForms, Kind>
    requires { texts.now ≡ string_table object.now }
    ensures comdat { IfOk result (λ forms. forms.has_comdat ≡ has_comdat object.now) }
    ensures directives { IfOk result (λ forms. forms.has_directives ≡ list_any (holds_directives object.now) (sections_in object.now)) }
    ensures resources { IfOk result (λ forms. forms.has_resources ≡ has_resources object.now) }
    ensures accepted { OnOk result (section_form object.now ≡ None) }
    ensures refused { IfErr result (λ kind. section_form object.now ≡ Some kind) }
{
    let mut long = false;
    let mut has_comdat = false;
    let mut has_directives = false;
    let mut has_resources = false;
    for index in 0..object.section_count() {
        let number = index + 1;
        if is_plain(object, number) {
            has_comdat |= is_comdat(object.section_flags(number));
            continue;
        }
        let form = section_form(object, texts, number);
        if form.is_linker {
            return Err(Kind::LinkerSection);
        }
        long |= form.is_long;
        has_comdat |= form.is_comdat;
        has_directives |= form.holds_directives;
        has_resources |= form.holds_resources;
    }
    if long {
        return Err(Kind::LongName);
    }
    Ok(SectionForms {
        has_comdat,
        has_directives,
        has_resources,
    })
}

/// Whether a section's name stands in its header and is none that is looked for, as most are: its first bytes tell.
fn is_plain(object: &Object<'_>, number: u32) -> bool
    requires first { 1 ≤ number }
    requires last { number ≤ section_total object.now }
    ensures short { result ≡ true → is_long (section_name_of object.now number) ≡ false }
    ensures otherwise { result ≡ true → BeginsOtherwise (section_name_of object.now number) }
{
    let field = object.section_name_field(number);
    field[0] != b'/' && !begins_sought(field)
}

/// What a section shows, of one whose name is too long no more than that. A name that begins otherwise than those that are
/// looked for is not read.
fn section_form(object: &Object<'_>, texts: &LongTexts<'_>, number: u32) -> SectionForm
    requires table { texts.now ≡ string_table object.now }
    requires first { 1 ≤ number }
    requires last { number ≤ section_total object.now }
    ensures { Shows object.now number result }
{
    if texts.is_long_section(object, number) {
        let name = object.section_name_start(number, LINKER_NAME_START);
        return SectionForm {
            is_linker: is_linker_section(&name),
            is_long: true,
            is_comdat: false,
            holds_directives: false,
            holds_resources: false,
        };
    }
    if !may_be_sought(&object.section_name_start(number, NAME_START)) {
        return plain_form(object, number);
    }
    let section = object.section(number);
    SectionForm {
        is_linker: is_linker_section(&section.name),
        is_long: false,
        is_comdat: is_comdat(section.flags),
        holds_directives: holds_directives(&section),
        holds_resources: is_resources(&section.name),
    }
}

/// What a section shows whose name is not too long, and none that is looked for.
fn plain_form(object: &Object<'_>, number: u32) -> SectionForm
    requires first { 1 ≤ number }
    requires last { number ≤ section_total object.now }
    requires short { is_long (section_name_of object.now number) ≡ false }
    requires otherwise { BeginsOtherwise (take NAME_START (section_name_of object.now number)) }
    ensures { Shows object.now number result }
{
    SectionForm {
        is_linker: false,
        is_long: false,
        is_comdat: is_comdat(object.section_flags(number)),
        holds_directives: false,
        holds_resources: false,
    }
}
