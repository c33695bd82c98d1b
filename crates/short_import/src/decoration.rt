//! The import name that a decorated symbol stands for (PE Format, "Import Name Type").

ghost use Rattle.std.specs.Prelude.{◌≡◌};
ghost use Rattle.short_import.specs.Decoration.{is_prefix, no_prefix, undecorated};

use memchr::memchr;

/// Whether a byte is one of the characters that decorate a symbol's start.
fn is_prefix(byte: u8) -> bool
    ensures { result ≡ is_prefix byte }
{
    byte == b'?' || byte == b'@' || byte == b'_'
}

/// The symbol without one such character at its start.
pub(crate) fn no_prefix(symbol: &[u8]) -> &[u8]
    ensures { result.now ≡ no_prefix symbol.now }
{
    if !symbol.is_empty() && is_prefix(symbol[0]) {
        return &symbol[1..];
    }
    symbol
}

/// The symbol without that character, up to the first `@` that remains.
pub(crate) fn undecorated(symbol: &[u8]) -> &[u8]
    ensures { result.now ≡ undecorated symbol.now }
{
    let bare = no_prefix(symbol);
    match memchr(b'@', bare) {
        Some(len) => &bare[..len],
        None => bare,
    }
}
