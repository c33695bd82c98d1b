//! What the pieces of a section say of it.

ghost use Rattle.std.specs.Prelude.{◌≡◌, ◌<◌, All, length};
ghost use Rattle.std.specs.List.{list_any};
ghost use Rattle.section_group.specs.SectionOrder.{piece_at, IsFirstPiece};
ghost use Rattle.section_group.specs.Placement.{needs_place, has_initialised, content_flags};
ghost use Rattle.section_group.specs.Gathering.{input_of};
ghost use Rattle.section_group.specs.Keys.{IsWithin};

use crate::owners::precedes;
use crate::parts::Parts;
use link_base::pe_format::{SCN_CNT_CODE, SCN_CNT_INITIALIZED_DATA, SCN_CNT_UNINITIALIZED_DATA};

/// Whether one of the pieces has bytes or is named.
pub(crate) fn is_needed(parts: &Parts<'_, '_>, members: &[u32]) -> bool
    requires { All (IsWithin (length parts.now.pieces.now)) members.now }
    ensures { result ≡ list_any (needs_place (input_of parts.now)) members.now }
{
    for index in members {
        let piece = &parts.pieces[*index as usize];
        if piece.size > 0 || piece.named {
            return true;
        }
    }
    false
}

/// The flags of what the section holds.
pub(crate) fn content_flags(parts: &Parts<'_, '_>, members: &[u32]) -> u32
    requires { All (IsWithin (length parts.now.pieces.now)) members.now }
    ensures { result ≡ content_flags (input_of parts.now) members.now }
{
    if !any_initialised(parts, members) {
        return SCN_CNT_UNINITIALIZED_DATA;
    }
    let code = if any_has(parts, members, SCN_CNT_CODE) {
        SCN_CNT_CODE
    } else {
        0
    };
    let data = if any_has(parts, members, SCN_CNT_INITIALIZED_DATA) {
        SCN_CNT_INITIALIZED_DATA
    } else {
        0
    };
    code | data
}

/// Whether one of the pieces is initialised.
fn any_initialised(parts: &Parts<'_, '_>, members: &[u32]) -> bool
    requires { All (IsWithin (length parts.now.pieces.now)) members.now }
    ensures { result ≡ list_any (λ k. (piece_at (input_of parts.now) k).init) members.now }
{
    for index in members {
        if parts.pieces[*index as usize].init {
            return true;
        }
    }
    false
}

/// Whether one of the initialised pieces has the flag.
fn any_has(parts: &Parts<'_, '_>, members: &[u32], flag: u32) -> bool
    requires { All (IsWithin (length parts.now.pieces.now)) members.now }
    ensures { result ≡ has_initialised (input_of parts.now) flag members.now }
{
    for index in members {
        let piece = &parts.pieces[*index as usize];
        if piece.init && piece.flags & flag != 0 {
            return true;
        }
    }
    false
}

/// The first of the pieces by module and number.
pub(crate) fn first_piece(parts: &Parts<'_, '_>, members: &[u32]) -> u32
    requires within { All (IsWithin (length parts.now.pieces.now)) members.now }
    requires some { 0 < length members.now }
    ensures { IsFirstPiece (input_of parts.now) members.now result }
{
    let mut first = members[0];
    for index in members {
        if precedes(parts, *index as usize, first as usize) {
            first = *index;
        }
    }
    first
}
