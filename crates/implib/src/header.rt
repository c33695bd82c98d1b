//! The header of a member (PE Format, "Archive Member Headers").

ghost use Rattle.std.specs.Prelude.{◌≡◌, ◌≤◌, ◌<◌, ◌^◌, ◌++◌, length, decimal, replicate, OnOk};
ghost use Rattle.implib.specs.ArchiveMember.{padded, member_header, line_end, member_size};

use crate::constants::{ARCHIVE_END, SIZEOF_ARCHIVE_MEMBER_HDR};
use itoa::Buffer;
use link_base::Memory;

// The widths of a header's fields.
const NAME_WIDTH: usize = 16;

const DATE_WIDTH: usize = 12;

const ID_WIDTH: usize = 6;

const MODE_WIDTH: usize = 8;

const SIZE_WIDTH: usize = 10;

/// What stands behind data of an odd length.
const LINE_END: &[u8] = b"\n";

/// How many bytes a member with so many bytes of data has.
pub(crate) fn member_size(size: usize) -> usize
    requires { size < 2 ^ 62 }
    ensures { result ≡ member_size size }
{
    SIZEOF_ARCHIVE_MEMBER_HDR + size + size % 2
}

/// Appends so many blanks.
fn push_blanks(out: &mut Vec<u8>, count: usize) -> Result<(), Memory>
    ensures { OnOk result (out.new.items ≡ out.old.items ++ replicate count 32) }
{
    let len = out.len().checked_add(count).ok_or(Memory)?;
    out.resize(len, b' ')?;
    Ok(())
}

/// Appends a text, with blanks behind it up to a width.
fn push_padded(out: &mut Vec<u8>, text: &[u8], width: usize) -> Result<(), Memory>
    requires { length text.now ≤ width }
    ensures { OnOk result (out.new.items ≡ out.old.items ++ padded width text.now) }
{
    out.extend_from_slice(text)?;
    push_blanks(out, width - text.len())
}

/// Appends a decimal number, with blanks behind it up to a width.
fn push_decimal(out: &mut Vec<u8>, number: u32, width: usize) -> Result<(), Memory>
    requires { 10 ≤ width }
    ensures { OnOk result (out.new.items ≡ out.old.items ++ padded width (decimal number)) }
{
    let mut buffer = Buffer::new();
    push_padded(out, buffer.format(number).as_bytes(), width)
}

/// Appends the header of a member with so many bytes of data.
#[tactic(auto, unfolding(crate::specs::ArchiveMember::member_header))]
pub(crate) fn push_header(
    out: &mut Vec<u8>,
    name: &[u8],
    time: u32,
    size: u32,
) -> Result<(), Memory>
    requires { length name.now ≤ 16 }
    ensures { OnOk result (out.new.items ≡ out.old.items ++ member_header name.now time size) }
{
    push_padded(out, name, NAME_WIDTH)?;
    push_decimal(out, time, DATE_WIDTH)?;
    push_padded(out, b"", ID_WIDTH)?;
    push_padded(out, b"", ID_WIDTH)?;
    push_padded(out, b"0", MODE_WIDTH)?;
    push_decimal(out, size, SIZE_WIDTH)?;
    out.extend_from_slice(ARCHIVE_END)?;
    Ok(())
}

/// Appends what stands behind so many bytes of data: a newline where their number is odd.
pub(crate) fn push_line_end(out: &mut Vec<u8>, size: usize) -> Result<(), Memory>
    ensures { OnOk result (out.new.items ≡ out.old.items ++ line_end size) }
{
    if size % 2 == 0 {
        return Ok(());
    }
    out.extend_from_slice(LINE_END)?;
    Ok(())
}
