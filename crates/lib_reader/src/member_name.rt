//! The name of a member, and which members are special (PE Format, "Archive Member Headers").

ghost use Rattle.std.specs.Prelude.{◌≡◌, ◌≤◌, length, is_none, IsTrue, IfSome};
ghost use Rattle.lib_reader.specs.MemberName.{names_directory, names_long_names, names_special, names_an_offset, without_slash, member_name};
ghost use Rattle.lib_reader.specs.MemberFault.{lacks_long_name};

use crate::constants::{ARCHIVE_LINKER_MEMBER, ARCHIVE_LONGNAMES_MEMBER, ARCHIVE_OTHER_MEMBER};
use crate::long_name::long_name;
use link_base::Name;

/// Whether a name is that of a directory.
pub(crate) fn names_directory(text: &[u8]) -> bool
    ensures { result ≡ names_directory text.now }
{
    text == ARCHIVE_LINKER_MEMBER
}

/// Whether a name is that of the member of long names.
pub(crate) fn names_long_names(text: &[u8]) -> bool
    ensures { result ≡ names_long_names text.now }
{
    text == ARCHIVE_LONGNAMES_MEMBER
}

/// Whether a name is one that the walk from the start of a library goes on behind.
#[tactic(auto, unfolding(crate::specs::MemberName::names_special))]
pub(crate) fn names_special(text: &[u8]) -> bool
    ensures { result ≡ names_special text.now }
{
    names_directory(text) || names_long_names(text) || text.starts_with(ARCHIVE_OTHER_MEMBER)
}

/// Whether a name is of the form that refers to the long names.
#[tactic(auto, unfolding(crate::specs::MemberName::names_an_offset))]
pub(crate) fn names_an_offset(text: &[u8]) -> bool
    ensures offset { result ≡ names_an_offset text.now }
    ensures first { IsTrue result → 1 ≤ length text.now }
{
    !text.is_empty() && text[0] == b'/' && !names_special(text)
}

/// A text without the slash at its end, where it has one there.
#[tactic(auto, unfolding(crate::specs::MemberName::without_slash))]
pub(crate) fn without_slash(text: &[u8]) -> &[u8]
    ensures { result.now ≡ without_slash text.now }
{
    if text.is_empty() || text[text.len() - 1] != b'/' {
        return text;
    }
    let (front, _) = text.split_at(text.len() - 1);
    front
}

/// The name that the text of a name field says: none where it refers to a long name that is missing. That of a special
/// member stands as it is.
#[tactic(auto, unfolding(crate::specs::MemberName::member_name, crate::specs::MemberFault::lacks_long_name))]
pub(crate) fn member_name<'a>(long_names: &'a [u8], text: &'a [u8]) -> Option<Name<'a>>
    requires { length text.now ≤ 16 }
    ensures name { IfSome result (λ name. name ≡ member_name long_names.now text.now) }
    ensures lacks { is_none result ≡ lacks_long_name long_names.now text.now }
{
    if names_special(text) {
        return Some(Name::of(text));
    }
    if !names_an_offset(text) {
        return Some(Name::of(without_slash(text)));
    }
    long_name(long_names, text)
}
