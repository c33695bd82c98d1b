//! The header of a short import, in bytes that hold it (PE Format, "Import Header").

ghost use Rattle.std.specs.Prelude.{◌≡◌, ◌≤◌, length};
ghost use Rattle.short_import.specs.ShortImport.{machine_of, data_size, ordinal_or_hint, import_type, name_type};

use link_base::{u16_in, u32_in};

/// The size of the header in bytes.
pub(crate) const HEADER_SIZE: usize = 20;

pub(crate) fn machine(bytes: &[u8]) -> u16
    requires { 20 ≤ length bytes.now }
    ensures { result ≡ machine_of bytes.now }
{
    u16_in(bytes, 6)
}

/// The size of the data behind the header, in bytes.
pub(crate) fn data_size(bytes: &[u8]) -> usize
    requires { 20 ≤ length bytes.now }
    ensures size { result ≡ data_size bytes.now }
    ensures bound { result ≤ 0xFFFF_FFFF }
{
    u32_in(bytes, 12) as usize
}

/// The ordinal of an import by ordinal, and else the hint.
pub(crate) fn ordinal_or_hint(bytes: &[u8]) -> u16
    requires { 20 ≤ length bytes.now }
    ensures { result ≡ ordinal_or_hint bytes.now }
{
    u16_in(bytes, 16)
}

/// What is imported, in two bits.
pub(crate) fn import_type(bytes: &[u8]) -> u16
    requires { 20 ≤ length bytes.now }
    ensures { result ≡ import_type bytes.now }
{
    u16_in(bytes, 18) % 4
}

/// How the import name comes from the symbol, in three bits.
pub(crate) fn name_type(bytes: &[u8]) -> u16
    requires { 20 ≤ length bytes.now }
    ensures { result ≡ name_type bytes.now }
{
    u16_in(bytes, 18) / 4 % 8
}
