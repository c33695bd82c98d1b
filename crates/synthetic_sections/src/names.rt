//! The names that can stand in the tables.

ghost use Rattle.std.specs.Prelude.{◌≡◌, ◌≤◌, ◌&&◌, false, not, nat_le, length, IsTrue};
ghost use Rattle.std.specs.List.{list_any};
ghost use Rattle.link_base.specs.Bytes.{is_nul};
ghost use Rattle.link_base.specs.Limits.{NAME_LIMIT};

use link_base::{NAME_LIMIT, Name};

/// Whether a name can stand in a table: it has at most 32,000 bytes, and no NUL, which would cut it short.
#[tactic(auto, using(crate::proofs::NameLemmas::plain_name))]
pub fn can_stand(name: &Name<'_>) -> bool
    ensures said { result ≡ (nat_le (length name.now) NAME_LIMIT && not (list_any is_nul name.now)) }
    ensures short { IsTrue result → length name.now ≤ NAME_LIMIT }
    ensures plain { IsTrue result → list_any is_nul name.now ≡ false }
{
    name.len() <= NAME_LIMIT && !has_nul(name.rest())
}

/// Whether a byte of a text is a NUL.
fn has_nul(text: &[u8]) -> bool
    ensures { result ≡ list_any is_nul text.now }
{
    text.iter().any(|byte| is_nul(byte))
}

fn is_nul(byte: &u8) -> bool
    ensures { result ≡ is_nul byte.now }
{
    *byte == 0
}
