//! The header of a member, judged and read in one pass.

ghost use Rattle.std.specs.Prelude.{◌≡◌, ◌<◌, ◌≤◌, ◌+◌, ◌^◌, length, false, None, Some, is_none, IfOk, IfErr, IfSome, OnOk};
ghost use Rattle.lib_reader.specs.ArchiveMember.{name_text, size_of, header_is_bad, size_is_bad};
ghost use Rattle.lib_reader.specs.MemberName.{member_name};
ghost use Rattle.lib_reader.specs.MemberFault.{lacks_long_name, member_fault};

use crate::error::LibError;
use crate::header::{header_is_bad, name_text, whole_size};
use crate::member_name::member_name;
use link_base::{LibFault, Name};

/// What a header that is not refused says of its member: its name, and how many bytes of data it has.
#[derive(Drop)]
pub(crate) struct Header<'a> {
    pub(crate) name: Name<'a>,
    pub(crate) size: usize,
}

fn fault(kind: LibFault, at: usize) -> LibError
    requires { at < 2 ^ 32 }
    ensures { result ≡ record { kind = kind; at = at } }
{
    LibError {
        kind,
        at: at as u32,
    }
}

/// Reads the header at an offset. It is refused for the first of these that stands: the header is bad, the size is, the long
/// name is missing.
#[tactic(auto, unfolding(crate::specs::MemberFault::member_fault))]
pub(crate) fn read_header<'a>(
    long_names: &'a [u8],
    bytes: &'a [u8],
    at: usize,
) -> Result<Header<'a>, LibError>
    requires { at < 2 ^ 32 }
    ensures name { IfOk result (λ header. header.name ≡ member_name long_names.now (name_text bytes.now at)) }
    ensures size { IfOk result (λ header. header.size ≡ size_of bytes.now at) }
    ensures whole { IfOk result (λ header. at + 60 + header.size ≤ length bytes.now) }
    ensures size_is { OnOk result (size_is_bad bytes.now at ≡ false) }
    ensures passes { OnOk result (member_fault long_names.now bytes.now at ≡ None) }
    ensures refused { IfErr result (λ error. member_fault long_names.now bytes.now at ≡ Some error) }
{
    if header_is_bad(bytes, at) {
        return Err(fault(LibFault::Header, at));
    }
    let Some(size) = whole_size(bytes, at) else {
        return Err(fault(LibFault::Size, at));
    };
    match member_name(long_names, name_text(bytes, at)) {
        Some(name) => Ok(Header { name, size }),
        None => Err(fault(LibFault::LongName, at)),
    }
}
