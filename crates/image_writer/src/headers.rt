//! The headers of an image.

ghost use Rattle.std.specs.Prelude.{◌≡◌, ◌<◌, ◌^◌, ◌++◌, length, OnOk};
ghost use Rattle.std.specs.List.{flat_map};
ghost use Rattle.image_writer.specs.HeaderTable.{size_of_code, size_of_initialized_data, size_of_uninitialized_data, size_of_headers, standard_fields, size_fields, directory_fields, fixed_headers, section_header, header_table, dos_header, file_header, characteristics, version_fields, reserve_fields};

use crate::bytes_out::{push_short_name, push_zeros};
use crate::header_sums::{code_base, code_size, initialized_data_size, uninitialized_data_size};
use link_base::LeNumber::{U8, U16, U32, U64};
use link_base::pe_format::{
    DOS_SIGNATURE, FILE_ALIGNMENT, FILE_DLL, FILE_EXECUTABLE_IMAGE, FILE_LARGE_ADDRESS_AWARE,
    FILE_MACHINE_AMD64, FILE_RELOCS_STRIPPED, NT_OPTIONAL_HDR64_MAGIC, NT_SIGNATURE,
    NUMBEROF_DIRECTORY_ENTRIES, PAGE_SIZE, PE_HEADER_OFFSET, SECTION_HEADERS_OFFSET,
    SIZEOF_OPTIONAL_HEADER, SIZEOF_SECTION_HEADER,
};
use link_base::{Memory, Name, push_fields};

/// What the headers say of the image beside its sections.
#[derive(Clone, Copy)]
pub struct Headers {
    /// The base that the image prefers.
    pub base: u64,
    /// The RVA of the entry point, or 0.
    pub entry: u32,
    /// Whether the image is a DLL.
    pub dll: bool,
    /// Whether the image can stand at its own base alone.
    pub fixed: bool,
    /// Whether the image may stand above 2 GiB.
    pub large: bool,
    /// The DLL characteristics.
    pub flags: u16,
    pub subsystem: u16,
    /// The image's version, major and minor.
    pub version: (u16, u16),
    /// The time stamp, in seconds since 1970.
    pub time: u32,
    /// The bytes of stack to reserve and to commit.
    pub stack: (u64, u64),
    /// The bytes of heap to reserve and to commit.
    pub heap: (u64, u64),
    /// The data directories, each an RVA and a size.
    pub directories: [(u32, u32); 16],
}

/// What the headers say of a section: its size in memory, its place there, and the size and the place of
/// its raw bytes in the file.
#[derive(Drop)]
pub(crate) struct SectionHeader<'a> {
    pub name: Name<'a>,
    pub size: u32,
    pub rva: u32,
    pub raw_size: u32,
    pub file_offset: u32,
    pub flags: u32,
}

/// The length of the headers of an image with this many sections, a multiple of the file alignment.
pub(crate) fn headers_size(count: u16) -> u32
    ensures { result ≡ size_of_headers count }
{
    (SECTION_HEADERS_OFFSET + SIZEOF_SECTION_HEADER as u32 * u32::from(count)).next_multiple_of(
        FILE_ALIGNMENT,
    )
}

/// Appends the headers of an image with these sections and this size in memory, up to the place of the
/// first raw bytes.
pub(crate) fn push_headers(
    out: &mut Vec<u8>,
    headers: &Headers,
    rows: &[SectionHeader<'_>],
    image_size: u32,
) -> Result<(), Memory>
    requires few { length rows.now < 2 ^ 16 }
    requires code { size_of_code rows.now < 2 ^ 32 }
    requires initialized { size_of_initialized_data rows.now < 2 ^ 32 }
    requires uninitialized { size_of_uninitialized_data rows.now < 2 ^ 32 }
    ensures { OnOk result (out.new.items ≡ out.old.items ++ header_table headers.now rows.now image_size) }
{
    let count = rows.len() as u16;
    let start = out.len();
    push_fixed_headers(out, headers, rows, image_size)?;
    push_section_headers(out, rows)?;
    let used = out.len() - start;
    push_zeros(out, (headers_size(count) as usize).saturating_sub(used))?;
    Ok(())
}

fn push_fixed_headers(
    out: &mut Vec<u8>,
    headers: &Headers,
    rows: &[SectionHeader<'_>],
    image_size: u32,
) -> Result<(), Memory>
    requires few { length rows.now < 2 ^ 16 }
    requires code { size_of_code rows.now < 2 ^ 32 }
    requires initialized { size_of_initialized_data rows.now < 2 ^ 32 }
    requires uninitialized { size_of_uninitialized_data rows.now < 2 ^ 32 }
    ensures { OnOk result (out.new.items ≡ out.old.items ++ fixed_headers headers.now rows.now image_size) }
{
    let count = rows.len() as u16;
    push_dos_header(out)?;
    push_file_header(out, headers, count)?;
    push_standard_fields(out, headers, rows)?;
    push_version_fields(out, headers)?;
    push_size_fields(out, headers, count, image_size)?;
    push_reserve_fields(out, headers)?;
    push_directories(out, &headers.directories)?;
    Ok(())
}

fn push_section_headers(out: &mut Vec<u8>, rows: &[SectionHeader<'_>]) -> Result<(), Memory>
    ensures { OnOk result (out.new.items ≡ out.old.items ++ flat_map section_header rows.now) }
{
    for row in rows {
        push_section_header(out, row)?;
    }
    Ok(())
}

fn push_section_header(out: &mut Vec<u8>, row: &SectionHeader<'_>) -> Result<(), Memory>
    ensures { OnOk result (out.new.items ≡ out.old.items ++ section_header row.now) }
{
    push_short_name(out, &row.name)?;
    push_fields(
        out,
        &[
            U32(row.size),
            U32(row.rva),
            U32(row.raw_size),
            U32(row.file_offset),
            U32(0),
            U32(0),
            U16(0),
            U16(0),
            U32(row.flags),
        ],
    )?;
    Ok(())
}

fn push_directories(out: &mut Vec<u8>, directories: &[(u32, u32)]) -> Result<(), Memory>
    ensures { OnOk result (out.new.items ≡ out.old.items ++ flat_map directory_fields directories.now) }
{
    for directory in directories {
        push_fields(out, &[U32(directory.0), U32(directory.1)])?;
    }
    Ok(())
}

fn push_standard_fields(
    out: &mut Vec<u8>,
    headers: &Headers,
    rows: &[SectionHeader<'_>],
) -> Result<(), Memory>
    requires code { size_of_code rows.now < 2 ^ 32 }
    requires initialized { size_of_initialized_data rows.now < 2 ^ 32 }
    requires uninitialized { size_of_uninitialized_data rows.now < 2 ^ 32 }
    ensures { OnOk result (out.new.items ≡ out.old.items ++ standard_fields headers.now rows.now) }
{
    push_fields(
        out,
        &[
            U16(NT_OPTIONAL_HDR64_MAGIC as u16),
            U8(14),
            U8(0),
            U32(code_size(rows)),
            U32(initialized_data_size(rows)),
            U32(uninitialized_data_size(rows)),
            U32(headers.entry),
            U32(code_base(rows)),
        ],
    )
}

fn push_size_fields(
    out: &mut Vec<u8>,
    headers: &Headers,
    count: u16,
    image_size: u32,
) -> Result<(), Memory>
    ensures { OnOk result (out.new.items ≡ out.old.items ++ size_fields headers.now count image_size) }
{
    push_fields(
        out,
        &[
            U32(image_size),
            U32(headers_size(count)),
            U32(0),
            U16(headers.subsystem),
            U16(headers.flags),
        ],
    )
}

fn push_dos_header(out: &mut Vec<u8>) -> Result<(), Memory>
    ensures { OnOk result (out.new.items ≡ out.old.items ++ dos_header) }
{
    push_fields(out, &[U16(DOS_SIGNATURE as u16)])?;
    out.extend_from_slice(&[0; 58])?;
    push_fields(out, &[U32(PE_HEADER_OFFSET)])?;
    Ok(())
}

fn push_file_header(out: &mut Vec<u8>, headers: &Headers, count: u16) -> Result<(), Memory>
    ensures { OnOk result (out.new.items ≡ out.old.items ++ file_header headers.now count) }
{
    push_fields(
        out,
        &[
            U32(NT_SIGNATURE),
            U16(FILE_MACHINE_AMD64),
            U16(count),
            U32(headers.time),
            U32(0),
            U32(0),
            U16(SIZEOF_OPTIONAL_HEADER as u16),
            U16(characteristics_of(headers)),
        ],
    )
}

fn characteristics_of(headers: &Headers) -> u16
    ensures { result ≡ characteristics headers.now }
{
    let mut flags = FILE_EXECUTABLE_IMAGE;
    if headers.fixed {
        flags += FILE_RELOCS_STRIPPED;
    }
    if headers.large {
        flags += FILE_LARGE_ADDRESS_AWARE;
    }
    if headers.dll {
        flags += FILE_DLL;
    }
    flags
}

fn push_version_fields(out: &mut Vec<u8>, headers: &Headers) -> Result<(), Memory>
    ensures { OnOk result (out.new.items ≡ out.old.items ++ version_fields headers.now) }
{
    push_fields(
        out,
        &[
            U64(headers.base),
            U32(PAGE_SIZE),
            U32(FILE_ALIGNMENT),
            U16(6),
            U16(0),
            U16(headers.version.0),
            U16(headers.version.1),
            U16(6),
            U16(0),
            U32(0),
        ],
    )
}

fn push_reserve_fields(out: &mut Vec<u8>, headers: &Headers) -> Result<(), Memory>
    ensures { OnOk result (out.new.items ≡ out.old.items ++ reserve_fields headers.now) }
{
    push_fields(
        out,
        &[
            U64(headers.stack.0),
            U64(headers.stack.1),
            U64(headers.heap.0),
            U64(headers.heap.1),
            U32(0),
            U32(NUMBEROF_DIRECTORY_ENTRIES),
        ],
    )
}
