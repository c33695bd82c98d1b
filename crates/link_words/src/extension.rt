//! File names with another extension.

ghost use Rattle.std.specs.Prelude.{◌≡◌, ◌<◌, ◌≤◌, length, take, slice_index, IfOk};
ghost use Rattle.std.specs.String.{string_bytes};
ghost use Rattle.link_words.specs.Extension.{stem, with_extension};

use memchr::{memrchr, memrchr2};
use std::alloc::{AllocError, Global};

/// The name with this extension, dot included, in place of its own. An extension runs from the last dot
/// after the last slash.
#[tactic(auto, unfolding(crate::specs::Extension::with_extension))]
pub(crate) fn with_extension(
    alloc: Global,
    name: &str,
    extension: &str,
) -> Result<String, AllocError>
    ensures { IfOk result (λ text. string_bytes text ≡ with_extension name.now extension.now) }
{
    let len = stem_len(name.as_bytes());
    let (stem, _) = name.split_at(len);
    let mut text = String::from_str(alloc, stem)?;
    text.push_str(extension)?;
    Ok(text)
}

/// How long the name is without its extension.
fn stem_len(name: &[u8]) -> usize
    ensures is { take result name.now ≡ stem name.now }
    ensures within { result ≤ length name.now }
    ensures dot { result < length name.now → slice_index name.now result ≡ 46 }
{
    let start = match memrchr2(b'/', b'\\', name) {
        Some(slash) => slash + 1,
        None => 0,
    };
    let (_, file) = name.split_at(start);
    match memrchr(b'.', file) {
        Some(dot) => start + dot,
        None => name.len(),
    }
}
