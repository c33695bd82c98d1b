//! Texts, each with a NUL behind it.

ghost use Rattle.std.specs.Prelude.{◌≡◌, ◌++◌, OnOk};
ghost use Rattle.implib.specs.RowMember.{text_bytes};

use link_base::{Memory, Name};

/// Appends a text and its NUL.
pub(crate) fn push_text(out: &mut Vec<u8>, text: &Name<'_>) -> Result<(), Memory>
    ensures { OnOk result (out.new.items ≡ out.old.items ++ text_bytes text.now) }
{
    text.push_to(out)?;
    out.push(0)?;
    Ok(())
}
