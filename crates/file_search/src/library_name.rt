//! The names of default libraries.

ghost use Rattle.std.specs.Prelude.{◌≡◌, IfOk};
ghost use Rattle.std.specs.List.{after_last};
ghost use Rattle.std.specs.Str.{str_to_ascii_lowercase};
ghost use Rattle.std.specs.String.{string_bytes};
ghost use Rattle.directives.specs.Text.{has, is_dot};
ghost use Rattle.link_words.specs.Extension.{is_slash};
ghost use Rattle.file_search.specs.FileNames.{completed};

use input_arena::Inputs;
use link_base::Memory;
use memchr::{memchr, memrchr2};
use std::alloc::Global;

/// The name of the file of a default library. One that is complete is not copied.
#[tactic(auto, unfolding(crate::specs::FileNames::completed))]
pub(crate) fn complete_name<'a>(
    alloc: Global,
    inputs: &mut Inputs<'a>,
    name: &'a str,
) -> Result<&'a str, Memory>
    ensures completed { IfOk result (λ complete. complete.now ≡ completed name.now) }
    ensures total_kept { inputs.new ≡ inputs.old }
{
    if has_extension(name) {
        return Ok(name);
    }
    let complete = format!(in alloc; "{name}.lib")?;
    inputs.text(complete.as_str())
}

/// The same name in lower case, as names are compared.
#[tactic(auto, unfolding(crate::specs::FileNames::completed))]
pub(crate) fn complete_key(alloc: Global, name: &str) -> Result<String, Memory>
    ensures { IfOk result (λ key. string_bytes key ≡ str_to_ascii_lowercase (completed name.now)) }
{
    let mut key = name.to_ascii_lowercase(alloc)?;
    if !has_extension(name) {
        key.push_str(".lib")?;
    }
    Ok(key)
}

/// Whether a name has a dot after its last slash.
fn has_extension(name: &str) -> bool
    ensures { result ≡ has is_dot (after_last is_slash name.now) }
{
    let bytes = name.as_bytes();
    let start = match memrchr2(b'/', b'\\', bytes) {
        Some(slash) => slash + 1,
        None => 0,
    };
    let (_, file) = bytes.split_at(start);
    memchr(b'.', file).is_some()
}
