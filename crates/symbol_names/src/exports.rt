//! What stands behind an export.

ghost use Rattle.std.specs.Prelude.{◌≡◌};
ghost use Rattle.std.specs.List.{list_any};
ghost use Rattle.symbol_names.specs.Exports.{is_dot, has_dot, internal_name, forwarder};

use directives::Export;
use link_base::Name;

/// The name of the link that an export stands for: the one that it gives behind its own, else its own. A forwarder, whose
/// internal name has a dot, stands for none.
pub fn internal_name<'a>(export: &Export<'a>) -> Option<Name<'a>>
    ensures { result ≡ internal_name export.now }
{
    match &export.internal {
        None => Some(export.name.again()),
        Some(text) => {
            if has_dot(text) {
                None
            } else {
                Some(text.again())
            }
        }
    }
}

/// The text of an export that is a forwarder: what another image exports, as `DLL.name`.
pub fn forwarder<'a>(export: &Export<'a>) -> Option<Name<'a>>
    ensures { result ≡ forwarder export.now }
{
    let text = export.internal.as_ref()?;
    if has_dot(text) {
        Some(text.again())
    } else {
        None
    }
}

/// Whether a text has a dot.
#[tactic(auto, unfolding(crate::specs::Exports::has_dot), using(crate::proofs::DotLemmas::dot_behind))]
fn has_dot(text: &Name<'_>) -> bool
    ensures { result ≡ has_dot text.now }
{
    has_dot_in(text.rest())
}

/// Whether one of some bytes is a dot.
fn has_dot_in(text: &[u8]) -> bool
    ensures { result ≡ list_any is_dot text.now }
{
    text.iter().any(|byte| is_dot(byte))
}

fn is_dot(byte: &u8) -> bool
    ensures { result ≡ is_dot byte.now }
{
    *byte == b'.'
}
