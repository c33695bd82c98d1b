//! The bytes of a library, in the form of the PE Format's "Archive (Library) File Format": the signature, the first linker
//! member, which is the directory, and the members, each at an even offset.

use crate::error::RowError;
use crate::library::{Library, Member};
use crate::object_layout::object_file;
use crate::string_table::len_u32;
use std::alloc::Global;

const SIGNATURE: &[u8; 8] = b"!<arch>\n";

const SIZEOF_MEMBER_HEADER: usize = 60;

/// The names that the directory lists, each with a NUL behind it, and the offset of the member of each.
#[derive(Drop)]
struct Directory {
    names: Vec<u8>,
    offsets: Vec<usize>,
}

/// The bytes of the library's file.
pub fn library_file(alloc: Global, library: &Library) -> Result<Vec<u8>, RowError> {
    let mut directory = Directory {
        names: Vec::new(alloc),
        offsets: Vec::new(alloc),
    };
    let mut members = Vec::new(alloc);
    for group in &library.groups {
        for member in group {
            list_member(&mut directory, member, members.len())?;
            let name = format!(in alloc; "{}/", member.name.as_str())?;
            push_member(
                alloc,
                &mut members,
                name.as_str(),
                &object_file(alloc, &member.object)?,
            )?;
        }
    }
    let mut file = Vec::from_slice(alloc, SIGNATURE)?;
    push_member(alloc, &mut file, "/", &directory_data(alloc, &directory)?)?;
    file.extend_from_slice(&members)?;
    Ok(file)
}

/// Lists the names of a member that stands at this offset behind the directory.
fn list_member(directory: &mut Directory, member: &Member, offset: usize) -> Result<(), RowError> {
    for name in &member.listed {
        directory.names.extend_from_slice(name.as_bytes())?;
        directory.names.push(0)?;
        directory.offsets.push(offset)?;
    }
    Ok(())
}

/// The data of the first linker member: how many names there are, the offset of each one's member in the file, and the
/// names. Its numbers have their highest byte first.
fn directory_data(alloc: Global, directory: &Directory) -> Result<Vec<u8>, RowError> {
    let count = directory.offsets.len();
    let len = count
        .saturating_add(1)
        .saturating_mul(4)
        .saturating_add(directory.names.len());
    let end = even(len)
        .saturating_add(SIGNATURE.len())
        .saturating_add(SIZEOF_MEMBER_HEADER);
    let mut data = Vec::new(alloc);
    push_u32(&mut data, count)?;
    for offset in &directory.offsets {
        push_u32(&mut data, offset.saturating_add(end))?;
    }
    data.extend_from_slice(&directory.names)?;
    Ok(data)
}

/// Appends a member: its header, with blanks and zeros but for its name and its size, its data, and a line's end where these
/// have an odd length.
fn push_member(alloc: Global, file: &mut Vec<u8>, name: &str, data: &[u8]) -> Result<(), RowError> {
    let len = data.len();
    let header = format!(in alloc; "{name:<16}{:<12}{:<6}{:<6}{:<8}{len:<10}`\n", 0, "", "", 0)?;
    if header.len() != SIZEOF_MEMBER_HEADER {
        return Err(RowError::Malformed("a member's name is too long"));
    }
    file.extend_from_slice(header.as_bytes())?;
    file.extend_from_slice(data)?;
    if even(len) != len {
        file.push(b'\n')?;
    }
    Ok(())
}

/// The least even number that is not below this one.
fn even(len: usize) -> usize {
    len.saturating_add(len % 2)
}

/// Appends a count or an offset, its highest byte first.
fn push_u32(data: &mut Vec<u8>, number: usize) -> Result<(), RowError> {
    data.extend_from_slice(&len_u32(number)?.to_be_bytes())?;
    Ok(())
}
