//! What the first bytes of a short import show.

ghost use Rattle.std.specs.Prelude.{◌≡◌, true, false};
ghost use Rattle.module_view.specs.ImportModule.{is_short_import};

/// Whether the first bytes are those of a short import.
pub(crate) fn is_short_import(bytes: &[u8]) -> bool
    ensures { result ≡ is_short_import bytes.now }
{
    if begins_otherwise(bytes) {
        return false;
    }
    bytes.starts_with(b"\x00\x00\xff\xff\x00\x00")
}

/// Whether the first byte is that of no short import, which it mostly is.
#[tactic(auto, using(crate::proofs::FormLemmas::no_short_import))]
fn begins_otherwise(bytes: &[u8]) -> bool
    ensures { result ≡ true → is_short_import bytes.now ≡ false }
{
    !bytes.is_empty() && bytes[0] != 0
}
