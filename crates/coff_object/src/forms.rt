//! The forms of files that their first bytes show, of those that are not read as an object.

ghost use Rattle.std.specs.Prelude.{◌≡◌, true, None};
ghost use Rattle.coff_object.specs.Forms.{form_shown, resource_start, is_anonymous};

use coff_records::is_big_object;
use link_base::{Kind, field_u16};

/// The first byte of an object for x64: the low byte of its machine. None of the forms below begins with it.
const X64_START: u8 = 0x64;

/// The first form that the first bytes show, of those that are not read as an object.
pub fn form_shown(bytes: &[u8]) -> Option<Kind>
    ensures { result ≡ form_shown bytes.now }
{
    if begins_x64(bytes) {
        return None;
    }
    other_form(bytes)
}

/// Whether the first byte is that of an object for x64.
#[tactic(auto, using(crate::proofs::FormLemmas::no_form))]
fn begins_x64(bytes: &[u8]) -> bool
    ensures { result ≡ true → form_shown bytes.now ≡ None }
{
    !bytes.is_empty() && bytes[0] == X64_START
}

/// The first form that bytes show which may begin with any byte.
#[tactic(auto, unfolding(crate::specs::Forms::form_shown))]
fn other_form(bytes: &[u8]) -> Option<Kind>
    ensures { result ≡ form_shown bytes.now }
{
    if bytes.starts_with(b"!<thin>") {
        return Some(Kind::ThinLibrary);
    }
    if bytes.starts_with(b"\x42\x43\xc0\xde") {
        return Some(Kind::Bitcode);
    }
    if bytes.starts_with(b"MZ") {
        return Some(Kind::Image);
    }
    if bytes.starts_with(resource_start()) {
        return Some(Kind::Resource);
    }
    if is_anonymous(bytes) {
        return Some(Kind::Anonymous);
    }
    None
}

/// The empty entry that a compiled resource file begins with.
#[tactic(auto, unfolding(crate::specs::Forms::resource_start))]
fn resource_start() -> &'static [u8]
    ensures { result.now ≡ resource_start }
{
    b"\x00\x00\x00\x00\x20\x00\x00\x00\xff\xff\x00\x00\xff\xff\x00\x00"
}

/// Whether the bytes begin as those of an anonymous object that is no big one: with a version, which a short import has
/// not.
fn is_anonymous(bytes: &[u8]) -> bool
    ensures { result ≡ is_anonymous bytes.now }
{
    if !bytes.starts_with(b"\x00\x00\xff\xff") {
        return false;
    }
    match field_u16(bytes, 4) {
        Some(version) => version != 0 && !is_big_object(bytes),
        None => false,
    }
}
