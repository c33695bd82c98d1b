//! The value of each directive.

ghost use Rattle.std.specs.Prelude.{◌≡◌, ◌≤◌, false, length, option_map, option_and_then};
ghost use Rattle.std.specs.Option.{option_copied};
ghost use Rattle.directives.specs.Said.{said};
ghost use Rattle.directives.specs.Said as says;
ghost use Rattle.link_base.specs.Bytes.{is_nul};
ghost use Rattle.link_base.specs.Limits.{NAME_LIMIT};
ghost use Rattle.directives.specs.Text.{is_comma, is_equals, is_quote, has};
ghost use Rattle.directives.specs.Form.{pair};
ghost use Rattle.directives.specs.FormView.{two_lists};
ghost use Rattle.directives.specs.ExportValue.{export_value};
ghost use Rattle.directives.specs.Value.{align_said, utf8_text, mismatch_said, name_of, names_of, listed_said, value_said};

use crate::exports::export_of;
use crate::form::{pair, whole};
use crate::item::Directive;
use crate::names::{Listed, directive_named};
use crate::number::decimal_up_to;
use crate::text::{is_name, is_short_and_plain, is_text, split_at_byte};
use link_base::Name;
use std::str;

/// The directive of this name, in either case, with this value. None where the linker knows no such directive, or the
/// value has not the form that the directive takes.
#[tactic(auto, unfolding(crate::specs::Value::value_said))]
pub fn value_of<'a>(name: &[u8], value: &'a [u8]) -> Option<Directive<'a>>
    ensures { option_map said result ≡ value_said name.now value.now }
{
    let listed = directive_named(name)?;
    listed_value(listed, value)
}

/// A directive of the table with this value, where it has the form that it takes.
pub(crate) fn listed_value(listed: Listed, value: &[u8]) -> Option<Directive<'_>>
    ensures { option_map said result ≡ listed_said value.now listed }
{
    match listed {
        Listed::AlignComm => align_comm(value),
        Listed::AlternateName => alternate_name(value),
        Listed::DefaultLib => default_lib(value),
        Listed::Exports => export(value),
        Listed::FailIfMismatch => fail_if_mismatch(value),
        Listed::Include => include(value),
        Listed::Merge => merge(value),
    }
}

/// A value that is one name.
#[tactic(auto, unfolding(crate::specs::Value::name_of))]
fn name_of(value: &[u8]) -> Option<&[u8]>
    ensures { option_copied result ≡ name_of value.now }
{
    if is_short_and_plain(value) {
        return (!value.is_empty()).then_some(value);
    }
    let text = whole(value)?;
    is_name(text).then_some(text)
}

/// A value that is two names, with `=` between.
#[tactic(auto, unfolding(crate::specs::Value::names_of))]
fn names_of(value: &[u8]) -> Option<(&[u8], &[u8])>
    ensures { option_map two_lists result ≡ names_of value.now }
{
    if is_short_and_plain(value) {
        return plain_names(value);
    }
    let (left, right) = pair(value, b'=')?;
    (is_name(left) && is_name(right)).then_some((left, right))
}

/// The same, of a value that is short and plain.
fn plain_names(value: &[u8]) -> Option<(&[u8], &[u8])>
    requires short { length value.now ≤ NAME_LIMIT }
    requires quote { has is_quote value.now ≡ false }
    requires nul { has is_nul value.now ≡ false }
    ensures { option_map two_lists result ≡ names_of value.now }
{
    let (left, right) = split_at_byte(value, b'=')?;
    (!left.is_empty() && !right.is_empty()).then_some((left, right))
}

/// A common's name, and the power of two that it is aligned to, at most 13.
fn align_comm(value: &[u8]) -> Option<Directive<'_>>
    ensures { option_map said result ≡ option_and_then align_said (pair is_comma value.now) }
{
    let (name, log) = pair(value, b',')?;
    if !is_name(name) {
        return None;
    }
    let log = decimal_up_to(log, 13)?;
    Some(Directive::AlignComm {
        name: Name::of(name),
        log: log as u8,
    })
}

fn alternate_name(value: &[u8]) -> Option<Directive<'_>>
    ensures { option_map said result ≡ option_map (λ two. says.AlternateName two.0 two.1) (names_of value.now) }
{
    let (left, right) = names_of(value)?;
    Some(Directive::AlternateName {
        left: Name::of(left),
        right: Name::of(right),
    })
}

fn default_lib(value: &[u8]) -> Option<Directive<'_>>
    ensures { option_map said result ≡ option_map says.DefaultLib (option_and_then utf8_text (name_of value.now)) }
{
    let text = utf8_text(name_of(value)?)?;
    Some(Directive::DefaultLib(text))
}

#[tactic(auto, using(crate::proofs::TextLemmas::utf8_there, crate::proofs::TextLemmas::utf8_missing))]
fn utf8_text(bytes: &[u8]) -> Option<&str>
    ensures { option_copied result ≡ utf8_text bytes.now }
{
    str::from_utf8(bytes).ok()
}

fn export(value: &[u8]) -> Option<Directive<'_>>
    ensures { option_map said result ≡ option_map says.Exports (export_value value.now) }
{
    let row = export_of(value)?;
    Some(Directive::Export(row))
}

/// A key, and its value, which may be empty.
fn fail_if_mismatch(value: &[u8]) -> Option<Directive<'_>>
    ensures { option_map said result ≡ option_and_then mismatch_said (pair is_equals value.now) }
{
    if is_short_and_plain(value) {
        return plain_mismatch(value);
    }
    let (key, value) = pair(value, b'=')?;
    if !(is_name(key) && is_text(value)) {
        return None;
    }
    Some(Directive::FailIfMismatch {
        key: Name::of(key),
        value: Name::of(value),
    })
}

/// The same, of a value that is short and plain.
fn plain_mismatch(value: &[u8]) -> Option<Directive<'_>>
    requires short { length value.now ≤ NAME_LIMIT }
    requires quote { has is_quote value.now ≡ false }
    requires nul { has is_nul value.now ≡ false }
    ensures { option_map said result ≡ option_and_then mismatch_said (pair is_equals value.now) }
{
    let (key, value) = split_at_byte(value, b'=')?;
    if key.is_empty() {
        return None;
    }
    Some(Directive::FailIfMismatch {
        key: Name::of(key),
        value: Name::of(value),
    })
}

fn include(value: &[u8]) -> Option<Directive<'_>>
    ensures { option_map said result ≡ option_map says.Include (name_of value.now) }
{
    let name = name_of(value)?;
    Some(Directive::Include(Name::of(name)))
}

fn merge(value: &[u8]) -> Option<Directive<'_>>
    ensures { option_map said result ≡ option_map (λ two. says.Merge two.0 two.1) (names_of value.now) }
{
    let (left, right) = names_of(value)?;
    Some(Directive::Merge {
        left: Name::of(left),
        right: Name::of(right),
    })
}
