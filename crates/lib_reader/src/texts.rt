//! Texts that stand one behind the other, each ended by a NUL.

ghost use Rattle.std.specs.Prelude.{◌≡◌, is_some, true, Some};
ghost use Rattle.link_base.specs.Bytes.{text_at};
ghost use Rattle.lib_reader.specs.Texts.{first_text, behind_text, texts_end};

use link_base::{Name, cstr};

/// What stands behind the first text, and its NUL.
#[tactic(auto, using(crate::proofs::TextsLemmas::first_text_at))]
fn behind<'a>(text: &'a [u8], first: &Name<'_>) -> &'a [u8]
    requires { text_at text.now 0 ≡ Some first.now }
    ensures { result.now ≡ behind_text text.now }
{
    let (_, rest) = text.split_at(first.len() + 1);
    rest
}

/// Whether that many texts end here: one walk from NUL to NUL.
pub(crate) fn texts_end(text: &[u8], count: u32) -> bool
    ensures { result ≡ texts_end count text.now }
{
    let mut rest = text;
    let mut left = count;
    while left > 0 {
        let Some(first) = cstr(rest, 0) else {
            return false;
        };
        rest = behind(rest, &first);
        left -= 1;
    }
    true
}

/// The first text, and what stands behind it and its NUL.
pub(crate) fn first_text(text: &[u8]) -> (Name<'_>, &[u8])
    requires { is_some (text_at text.now 0) ≡ true }
    ensures text { result.0 ≡ first_text text.now }
    ensures rest { result.1.now ≡ behind_text text.now }
{
    match cstr(text, 0) {
        Some(first) => {
            let rest = behind(text, &first);
            (first, rest)
        }
        None => (Name::of(text), text),
    }
}
