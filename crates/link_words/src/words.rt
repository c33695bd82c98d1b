//! The words of a link, one after another.

ghost use Rattle.std.specs.Prelude.{◌≡◌, drop, map, option_map};
ghost use Rattle.std.specs.Option.{option_copied};
ghost use Rattle.std.specs.String.{string_bytes};
ghost use Rattle.directives.specs.Text.{is_colon, split_at_first};
ghost use Rattle.directives.specs.FormView.{two_lists};
ghost use Rattle.link_words.specs.Known.{known};
ghost use Rattle.link_words.specs.Setting.{option_says, input_says, word_says};
ghost use Rattle.link_words.specs.Answers.{Answers};
ghost use Rattle.link_words.specs.Steps.{so_far, with_said, words_give, refused_at, Gives};

use crate::effect::{bare, with_value};
use crate::errors::{Refusal, UsageKind, WordsError, usage};
use crate::field::push_text;
use crate::given::{Given, none_given};
use crate::known::option_named;
use directives::{begins_option, is_text};
use std::alloc::Global;

/// What the words give, or the first of them that is refused. The first word here has the index 1.
pub(crate) fn given_by<'w>(alloc: Global, words: &'w [String]) -> Result<Given<'w>, WordsError>
    ensures { Answers so_far (words_give (map string_bytes words.now)) result }
{
    let mut given = none_given(alloc);
    for (k, word) in words.iter().enumerate() {
        match one_word(&mut given, word.as_str()) {
            Ok(()) => {}
            Err(refusal) => return Err(refused_at(k + 1, refusal)),
        }
    }
    Ok(given)
}

fn refused_at(index: usize, refusal: Refusal) -> WordsError
    ensures { result ≡ refused_at index refusal }
{
    match refusal {
        Refusal::Usage(kind) => usage(index, kind),
        Refusal::Memory => WordsError::Memory,
    }
}

/// One word: an option, which begins with `/` or `-`, or an input file.
#[tactic(auto, unfolding(crate::specs::Setting::word_says))]
fn one_word<'w>(given: &mut Given<'w>, word: &'w str) -> Result<(), Refusal>
    ensures { Gives result (with_said (so_far given.old) (word_says word.now)) (so_far given.new) }
{
    if !begins_option(word.as_bytes()) {
        return input(given, word);
    }
    match split_at_colon(word) {
        None => {
            let name = after_first_byte(word.as_bytes());
            one_option(given, word, name, None)
        }
        Some((front, value)) => {
            let name = after_first_byte(front.as_bytes());
            one_option(given, word, name, Some(value))
        }
    }
}

fn after_first_byte(text: &[u8]) -> &[u8]
    ensures { result.now ≡ drop 1 text.now }
{
    match text {
        [] => text,
        [_, rest @ ..] => rest,
    }
}

/// What stands before the first colon, and what stands after it.
fn split_at_colon(word: &str) -> Option<(&str, &str)>
    ensures { option_map two_lists result ≡ split_at_first is_colon word.now }
{
    word.split_once(':')
}

/// An input file.
fn input<'w>(given: &mut Given<'w>, word: &'w str) -> Result<(), Refusal>
    ensures { Gives result (with_said (so_far given.old) (input_says word.now)) (so_far given.new) }
{
    if !is_text(word.as_bytes()) {
        return Err(Refusal::Usage(UsageKind::BadValue));
    }
    push_text(&mut given.options.inputs, word)
}

/// The option of this name, with or without a value.
fn one_option<'w>(
    given: &mut Given<'w>,
    word: &str,
    name: &[u8],
    value: Option<&'w str>,
) -> Result<(), Refusal>
    ensures { Gives result (with_said (so_far given.old) (option_says word.now name.now (option_copied value.entry) (known name.now))) (so_far given.new) }
{
    let Some(one) = option_named(name) else {
        return Err(Refusal::Usage(UsageKind::Unknown));
    };
    let Some(value) = value else {
        return bare(given, one);
    };
    if value.is_empty() {
        return Err(Refusal::Usage(UsageKind::MissingValue));
    }
    if !is_text(word.as_bytes()) {
        return Err(Refusal::Usage(UsageKind::BadValue));
    }
    with_value(given, name, value, one)
}
