//! A text as words, and what a word says.

ghost use Rattle.std.specs.Prelude.{◌≡◌, ◌≤◌, ◌<◌, ◌+◌, ◌^◌, length, take, false, option_map, IsTrue, IfSome};
ghost use Rattle.std.specs.Prelude.{◌&&◌, not, if◌then◌else◌};
ghost use Rattle.directives.specs.Text.{is_quote, is_colon};
ghost use Rattle.directives.specs.Said.{said, item_said};
ghost use Rattle.directives.specs.Words.{is_blank, word_len, leaves_open, last_quote, quoted_contents, contents, option_says, contents_say, word_says, open_quote, directive_or_bad};
ghost use Rattle.std.specs.Option.{option_copied};
ghost use Rattle.std.specs.List.{before_first, after_first};

use crate::item::{BadDirective, Directive};
use crate::names::directive_named;
use crate::text::{begins_option, split_at_byte};
use crate::values::listed_value;

/// A byte that stands between words.
pub(crate) fn is_blank(b: u8) -> bool
    ensures { result ≡ is_blank b }
{
    matches!(b, b' ' | b'\t' | b'\n' | b'\r' | 0)
}

/// Whether a quote is open after the byte, where one is or is not before it.
fn turned(is_open: bool, b: u8) -> bool
    ensures { result ≡ (if is_quote b then not is_open else is_open) }
{
    if b == b'"' { !is_open } else { is_open }
}

fn ends(is_open: bool, b: u8) -> bool
    ensures { result ≡ (is_blank b && not is_open) }
{
    is_blank(b) && !is_open
}

/// Whether the byte is neither a blank nor a quote, as most are: all of those come before it.
fn is_inner(b: u8) -> bool
    ensures blank { IsTrue result → is_blank b ≡ false }
    ensures quote { IsTrue result → is_quote b ≡ false }
{
    b > b'"'
}

/// How long the word is that the text begins with: up to the first blank outside quotes. Where it ends before the text, each
/// of its quotes is closed.
pub(crate) fn word_len(text: &[u8]) -> usize
    ensures is { result ≡ word_len text.now }
    ensures within { result ≤ length text.now }
    ensures closed { result < length text.now → leaves_open (take result text.now) ≡ false }
{
    let mut is_open = false;
    for (k, b) in text.iter().enumerate() {
        if is_inner(*b) {
            continue;
        }
        if ends(is_open, *b) {
            return k;
        }
        is_open = turned(is_open, *b);
    }
    text.len()
}

/// Where the quote stands that stays open in a word, where one does: only the last word of a text has to be searched.
fn quote_left_open(word: &[u8], is_last: bool) -> Option<usize>
    requires { is_last ≡ false → leaves_open word.now ≡ false }
    ensures is { result ≡ open_quote word.now }
    ensures within { IfSome result (λ k. k ≤ length word.now) }
{
    if is_last { open_quote(word) } else { None }
}

/// Where the last quote of a word stands, where it is open.
fn open_quote(word: &[u8]) -> Option<usize>
    ensures is { result ≡ open_quote word.now }
    ensures within { IfSome result (λ k. k ≤ length word.now) }
{
    let mut is_open = false;
    let mut last = 0;
    for (k, b) in word.iter().enumerate() {
        is_open = turned(is_open, *b);
        last = later_quote(last, k, *b);
    }
    is_open.then_some(last)
}

fn later_quote(last: usize, k: usize, b: u8) -> usize
    ensures { result ≡ (if is_quote b then k else last) }
{
    if b == b'"' { k } else { last }
}

/// What stands between the quotes of a word that is quoted as a whole, and else the word.
#[tactic(auto, unfolding(crate::specs::Words::contents))]
fn contents(word: &[u8]) -> &[u8]
    ensures { result.now ≡ contents word.now }
{
    match quoted_contents(word) {
        Some(inner) => inner,
        None => word,
    }
}

#[tactic(auto, unfolding(crate::specs::Words::quoted_contents))]
fn quoted_contents(word: &[u8]) -> Option<&[u8]>
    ensures { option_copied result ≡ quoted_contents word.now }
{
    if word.is_empty() || word[0] != b'"' {
        return None;
    }
    let (_, text) = word.split_at(1);
    let (inner, after) = split_at_byte(text, b'"')?;
    if !after.is_empty() {
        return None;
    }
    Some(inner)
}

/// What a word says that stands at `start`: a directive, a malformed place, or nothing. Only in the last word of a text can a
/// quote be open.
#[tactic(auto, unfolding(crate::specs::Words::word_says))]
pub(crate) fn word_says(
    start: usize,
    word: &[u8],
    is_last: bool,
) -> Option<Result<Directive<'_>, BadDirective>>
    requires place { start + length word.now < 2 ^ 64 }
    requires closed { is_last ≡ false → leaves_open word.now ≡ false }
    ensures { option_map item_said result ≡ word_says (record { start = start; text = word.now }) }
{
    match quote_left_open(word, is_last) {
        Some(at) => Some(Err(BadDirective { at: start + at })),
        None => contents_say(start, contents(word)),
    }
}

/// What the contents of a word say: nothing where they are no option.
#[tactic(auto, unfolding(crate::specs::Words::contents_say))]
fn contents_say(start: usize, text: &[u8]) -> Option<Result<Directive<'_>, BadDirective>>
    ensures { option_map item_said result ≡ contents_say start text.now }
{
    if !begins_option(text) {
        return None;
    }
    let (_, option) = text.split_at(1);
    option_says(start, option)
}

/// What an option says: nothing where its name, which runs to the first colon, is no directive's.
#[tactic(auto, unfolding(crate::specs::Words::option_says))]
fn option_says(start: usize, option: &[u8]) -> Option<Result<Directive<'_>, BadDirective>>
    ensures { option_map item_said result ≡ option_says start option.now }
{
    let (name, value) = name_and_value(option);
    match directive_named(name) {
        Some(listed) => Some(directive_or_bad(start, listed_value(listed, value))),
        None => None,
    }
}

fn directive_or_bad(
    start: usize,
    read: Option<Directive<'_>>,
) -> Result<Directive<'_>, BadDirective>
    ensures { item_said result ≡ directive_or_bad start (option_map said read.entry) }
{
    match read {
        Some(directive) => Ok(directive),
        None => Err(BadDirective { at: start }),
    }
}

/// The name of an option, and what stands after its colon.
#[tactic(auto, using(crate::proofs::PlaceLemmas::before_none, crate::proofs::PlaceLemmas::after_none))]
fn name_and_value(option: &[u8]) -> (&[u8], &[u8])
    ensures name { result.0.now ≡ before_first is_colon option.now }
    ensures value { result.1.now ≡ after_first is_colon option.now }
{
    match split_at_byte(option, b':') {
        Some(parts) => parts,
        None => option.split_at(option.len()),
    }
}
