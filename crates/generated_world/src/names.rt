//! Names with a number.

ghost use Rattle.std.specs.Prelude.{◌≡◌, ◌++◌, string_bytes, IfOk};
ghost use Rattle.std.specs.Fmt.{decimal};

use link_base::Memory;
use std::alloc::Global;

/// A name and a number behind it, in decimal.
pub(crate) fn numbered(alloc: Global, name: &str, number: u32) -> Result<String, Memory>
    ensures { IfOk result (λ text. string_bytes text ≡ name.now ++ decimal number) }
{
    Ok(format!(in alloc; "{name}{number}")?)
}
