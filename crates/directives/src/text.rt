//! Texts, and the bytes that part them.

ghost use Rattle.std.specs.Prelude.{◌≡◌, ◌==◌, ◌<◌, ◌≤◌, false, length, option_map, position, IfSome, IsTrue};
ghost use Rattle.link_base.specs.Bytes.{is_nul};
ghost use Rattle.link_base.specs.Limits.{NAME_LIMIT};
ghost use Rattle.directives.specs.Text.{has, is_quote, split_at_first, is_text, is_name, begins_option};
ghost use Rattle.directives.specs.FormView.{two_lists};

use link_base::NAME_LIMIT;
use memchr::memchr;

/// A text of fewer bytes is short.
const SHORT: usize = 32;

/// Where such a byte stands first.
#[tactic(auto, using(link_base::proofs::FoundLemmas::first_place))]
pub(crate) fn place_of(text: &[u8], byte: u8) -> Option<usize>
    ensures is { result ≡ position (λ b. b == byte) text.now }
    ensures within { IfSome result (λ at. at < length text.now) }
{
    memchr(byte, text)
}

/// What stands before the first such byte, and what stands after it, where there is one.
pub fn split_at_byte(text: &[u8], byte: u8) -> Option<(&[u8], &[u8])>
    ensures { option_map two_lists result ≡ split_at_first (λ b. b == byte) text.now }
{
    match place_of(text, byte) {
        Some(at) => {
            let (before, _) = text.split_at(at);
            let (_, after) = text.split_at(at + 1);
            Some((before, after))
        }
        None => None,
    }
}

pub(crate) fn has_byte(text: &[u8], byte: u8) -> bool
    ensures { result ≡ has (λ b. b == byte) text.now }
{
    place_of(text, byte).is_some()
}

/// Whether the text is short, and neither a quote nor a NUL stands in it, as in most values. To look at each byte of a short
/// text once costs less than a search for each of the two.
pub(crate) fn is_short_and_plain(text: &[u8]) -> bool
    ensures short { IsTrue result → length text.now ≤ NAME_LIMIT }
    ensures quote { IsTrue result → has is_quote text.now ≡ false }
    ensures nul { IsTrue result → has is_nul text.now ≡ false }
{
    text.len() < SHORT && is_plain(text)
}

/// Whether each byte comes after the quote's, so that none is a quote or a NUL.
fn is_plain(text: &[u8]) -> bool
    ensures quote { IsTrue result → has is_quote text.now ≡ false }
    ensures nul { IsTrue result → has is_nul text.now ≡ false }
{
    for b in text {
        if *b <= b'"' {
            return false;
        }
    }
    true
}

/// Whether the text may stand in a word: it has at most `NAME_LIMIT` bytes, and no NUL.
#[tactic(auto, unfolding(crate::specs::Text::is_text))]
pub fn is_text(text: &[u8]) -> bool
    ensures { result ≡ is_text text.now }
{
    text.len() <= NAME_LIMIT && !has_byte(text, 0)
}

/// Whether the text can be a name: such a text that is not empty.
#[tactic(auto, unfolding(crate::specs::Text::is_name))]
pub(crate) fn is_name(text: &[u8]) -> bool
    ensures { result ≡ is_name text.now }
{
    !text.is_empty() && is_text(text)
}

/// Whether a word is an option: it begins with `/` or `-`.
pub fn begins_option(word: &[u8]) -> bool
    ensures is { result ≡ begins_option word.now }
    ensures not_empty { IsTrue result → 0 < length word.now }
{
    !word.is_empty() && (word[0] == b'/' || word[0] == b'-')
}
