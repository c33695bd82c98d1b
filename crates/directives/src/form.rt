//! How a value stands: its quotes and its parts.

ghost use Rattle.std.specs.Prelude.{◌≡◌, ◌==◌, option_map};
ghost use Rattle.std.specs.Option.{option_copied};
ghost use Rattle.directives.specs.Form.{form, quoted_form, whole, pair, may_follow_quotes, some_text, two_after};
ghost use Rattle.directives.specs.FormView.{form_lists, two_lists};

use crate::text::{has_byte, split_at_byte};

/// A value's first part, and what stands after the quotes of a quoted one, where something does.
#[derive(Clone, Copy)]
pub(crate) struct Form<'a> {
    pub(crate) first: &'a [u8],
    pub(crate) after: Option<&'a [u8]>,
}

/// The form of a value: text without quotes, one quoted text, or a quoted first part followed by a comma or
/// `=` and text without quotes.
#[tactic(auto, unfolding(crate::specs::Form::form))]
pub(crate) fn form_of(value: &[u8]) -> Option<Form<'_>>
    ensures { option_map form_lists result ≡ form value.now }
{
    if !value.is_empty() && value[0] == b'"' {
        let (_, text) = value.split_at(1);
        return quoted_form(text);
    }
    if has_byte(value, b'"') {
        return None;
    }
    Some(Form {
        first: value,
        after: None,
    })
}

/// The form of a value, from after the quote that it begins with.
#[tactic(auto, unfolding(crate::specs::Form::quoted_form))]
fn quoted_form(text: &[u8]) -> Option<Form<'_>>
    ensures { option_map form_lists result ≡ quoted_form text.now }
{
    let (first, after) = split_at_byte(text, b'"')?;
    if !may_follow_quotes(after) {
        return None;
    }
    Some(Form {
        first,
        after: some_text(after),
    })
}

/// Whether the text may stand after a quoted first part.
fn may_follow_quotes(text: &[u8]) -> bool
    ensures { result ≡ may_follow_quotes text.now }
{
    match text {
        [] => true,
        [first, rest @ ..] => (*first == b',' || *first == b'=') && !has_byte(rest, b'"'),
    }
}

fn some_text(text: &[u8]) -> Option<&[u8]>
    ensures { option_copied result ≡ some_text text.now }
{
    if text.is_empty() { None } else { Some(text) }
}

/// A value of one part.
#[tactic(auto, unfolding(crate::specs::Form::whole))]
pub(crate) fn whole(value: &[u8]) -> Option<&[u8]>
    ensures { option_copied result ≡ whole value.now }
{
    let form = form_of(value)?;
    match form.after {
        None => Some(form.first),
        Some(_) => None,
    }
}

/// A value of two parts, split at the first separator, or right after the quotes of the first part.
#[tactic(auto, unfolding(crate::specs::Form::pair))]
pub(crate) fn pair(value: &[u8], separator: u8) -> Option<(&[u8], &[u8])>
    ensures { option_map two_lists result ≡ pair (λ b. b == separator) value.now }
{
    let form = form_of(value)?;
    match form.after {
        None => split_at_byte(form.first, separator),
        Some(after) => after_separator(form.first, after, separator),
    }
}

fn after_separator<'a>(
    first: &'a [u8],
    after: &'a [u8],
    separator: u8,
) -> Option<(&'a [u8], &'a [u8])>
    ensures { option_map two_lists result ≡ two_after (λ b. b == separator) first.now after.now }
{
    match after {
        [] => None,
        [b, second @ ..] => (*b == separator).then_some((first, second)),
    }
}
