//! Long names, which stand in a member of their own and end at a NUL or a newline (PE Format, "Longnames
//! Member").

ghost use Rattle.std.specs.Prelude.{◌≡◌, ◌<◌, ◌≤◌, drop, length, IfSome};
ghost use Rattle.std.specs.List.{before_first};
ghost use Rattle.lib_reader.specs.MemberName.{ends_long_name, without_slash, long_offset, long_name};

use crate::member_name::without_slash;
use link_base::{Name, decimal_number};
use memchr::memchr2;

/// The text from an offset on, up to its end byte, or whole where none comes.
fn text_from(long_names: &[u8], offset: usize) -> &[u8]
    requires { offset < length long_names.now }
    ensures { result.now ≡ before_first ends_long_name (drop offset long_names.now) }
{
    let (_, rest) = long_names.split_at(offset);
    let Some(len) = memchr2(0, b'\n', rest) else {
        return rest;
    };
    let (text, _) = rest.split_at(len);
    text
}

/// The offset that a name of the form `/n` refers to, where it lies in the long names.
#[tactic(auto, unfolding(crate::specs::MemberName::long_offset))]
fn offset_in(long_names: &[u8], text: &[u8]) -> Option<usize>
    requires first { 1 ≤ length text.now }
    requires short { length text.now ≤ 16 }
    ensures offset { result ≡ long_offset long_names.now text.now }
    ensures inside { IfSome result (λ offset. offset < length long_names.now) }
{
    let (_, digits) = text.split_at(1);
    let offset = decimal_number(digits)?;
    if offset < long_names.len() {
        Some(offset)
    } else {
        None
    }
}

/// The long name that a name of the form `/n` refers to, where there is one.
#[tactic(auto, unfolding(crate::specs::MemberName::long_name_at))]
pub(crate) fn long_name<'a>(long_names: &'a [u8], text: &[u8]) -> Option<Name<'a>>
    requires first { 1 ≤ length text.now }
    requires short { length text.now ≤ 16 }
    ensures { result ≡ long_name long_names.now text.now }
{
    let offset = offset_in(long_names, text)?;
    Some(Name::of(without_slash(text_from(long_names, offset))))
}
