//! The value of an export: its name, where it is found inside, and its attributes.

ghost use Rattle.std.specs.Prelude.{◌≡◌, ◌<◌, ℕ, Bool, length, position, IfSome};
ghost use Rattle.std.specs.Option.{option_copied};
ghost use Rattle.std.specs.List.{before_first};
ghost use Rattle.directives.specs.Text.{is_comma};
ghost use Rattle.directives.specs.FormView.{form_lists, two_lists};
ghost use Rattle.directives.specs.Taken.{attributes_said};
ghost use Rattle.directives.specs.ExportValue.{export_row, ends_name, from_first, export_parts, export_internal, export_of, export_value};

use crate::attributes::{Attributes, attributes_after, form_of as form_of_attributes};
use crate::form::{Form, form_of};
use crate::item::Export;
use crate::text::{is_name, place_of};
use link_base::Name;
use memchr::memchr2;

/// The export of a value.
#[tactic(auto, unfolding(crate::specs::ExportValue::export_value))]
pub(crate) fn export_of(value: &[u8]) -> Option<Export<'_>>
    ensures { result ≡ export_value value.now }
{
    let form = form_of(value)?;
    let (name, after) = export_parts(form);
    export_named(name, after)
}

/// The name, which ends at the first comma or `=` or with its quotes, and what stands after it.
fn export_parts(form: Form<'_>) -> (&[u8], &[u8])
    ensures { two_lists result ≡ export_parts (form_lists form.entry) }
{
    match form.after {
        Some(after) => (form.first, after),
        None => split_before(form.first, name_end(form.first)),
    }
}

fn name_end(text: &[u8]) -> Option<usize>
    ensures is { result ≡ position ends_name text.now }
    ensures within { IfSome result (λ at. at < length text.now) }
{
    memchr2(b',', b'=', text)
}

/// The export of this name, after which stands `=` and an internal name, or attributes.
#[tactic(auto, unfolding(crate::specs::ExportValue::export_of))]
fn export_named<'a>(name: &'a [u8], after: &'a [u8]) -> Option<Export<'a>>
    ensures { result ≡ export_of (name.now, after.now) }
{
    if !is_name(name) {
        return None;
    }
    if !after.is_empty() && after[0] == b'=' {
        let (_, text) = after.split_at(1);
        return export_internal(name, text);
    }
    let found = attributes_after(after)?;
    export_row(name, None, found)
}

/// The export of this name, with the internal name up to the first comma of the text.
#[tactic(auto, unfolding(crate::specs::ExportValue::export_internal))]
fn export_internal<'a>(name: &'a [u8], text: &'a [u8]) -> Option<Export<'a>>
    ensures { result ≡ export_internal name.now text.now }
{
    let (internal, after) = split_before(text, place_of(text, b','));
    if !is_name(internal) {
        return None;
    }
    let found = attributes_after(after)?;
    export_row(name, Some(internal), found)
}

/// What stands before a place, and what stands from there on; all of it before no place.
fn split_before(text: &[u8], place: Option<usize>) -> (&[u8], &[u8])
    requires { IfSome place (λ at. at < length text.now) }
    ensures { (test : ℕ → Bool) → place ≡ position test text.entry.now → two_lists result ≡ (before_first test text.entry.now, from_first test text.entry.now) }
{
    match place {
        Some(at) => text.split_at(at),
        None => text.split_at(text.len()),
    }
}

/// An export without a name needs its ordinal.
fn export_row<'a>(
    name: &'a [u8],
    internal: Option<&'a [u8]>,
    found: Attributes,
) -> Option<Export<'a>>
    ensures { result ≡ export_row name.now (option_copied internal.entry) (attributes_said found) }
{
    if found.noname && found.ordinal.is_none() {
        return None;
    }
    Some(Export {
        name: Name::of(name),
        internal: internal.map(Name::of),
        ordinal: found.ordinal,
        noname: found.noname,
        form: form_of_attributes(found),
        private: found.private_item,
    })
}
