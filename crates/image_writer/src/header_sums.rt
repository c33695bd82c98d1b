//! What the headers say of all sections together.

ghost use Rattle.std.specs.Prelude.{◌≡◌, ◌<◌, ◌^◌, IsTrue};
ghost use Rattle.std.specs.Int.{next_multiple_of};
ghost use Rattle.link_base.specs.PeFormat.{FILE_ALIGNMENT};
ghost use Rattle.image_writer.specs.HeaderTable.{size_of_code, size_of_initialized_data, size_of_uninitialized_data, base_of_code};

use crate::headers::SectionHeader;
use link_base::pe_format::{FILE_ALIGNMENT, SCN_CNT_CODE, SCN_CNT_UNINITIALIZED_DATA};

/// The sum of the raw sizes of the sections with code.
pub(crate) fn code_size(rows: &[SectionHeader<'_>]) -> u32
    requires { size_of_code rows.now < 2 ^ 32 }
    ensures { result ≡ size_of_code rows.now }
{
    rows.iter()
        .map(|row| if row.flags & SCN_CNT_CODE != 0 {
            row.raw_size
        } else {
            0
        })
        .sum()
}

/// The sum of the raw sizes of the other sections.
pub(crate) fn initialized_data_size(rows: &[SectionHeader<'_>]) -> u32
    requires { size_of_initialized_data rows.now < 2 ^ 32 }
    ensures { result ≡ size_of_initialized_data rows.now }
{
    rows.iter()
        .map(|row| if row.flags & SCN_CNT_CODE != 0 {
            0
        } else {
            row.raw_size
        })
        .sum()
}

/// The sum of the sizes in memory, each rounded up as in the file, of the sections without bytes in the file.
pub(crate) fn uninitialized_data_size(rows: &[SectionHeader<'_>]) -> u32
    requires { size_of_uninitialized_data rows.now < 2 ^ 32 }
    ensures { result ≡ size_of_uninitialized_data rows.now }
{
    let sum: u64 = rows
        .iter()
        .map(|row| if row.flags & SCN_CNT_UNINITIALIZED_DATA != 0 {
            file_aligned(row.size)
        } else {
            0
        })
        .sum();
    sum as u32
}

fn file_aligned(size: u32) -> u64
    ensures { result ≡ next_multiple_of size FILE_ALIGNMENT }
{
    u64::from(size).next_multiple_of(u64::from(FILE_ALIGNMENT))
}

/// The RVA of the first section with code, or 0.
pub(crate) fn code_base(rows: &[SectionHeader<'_>]) -> u32
    ensures { result ≡ base_of_code rows.now }
{
    for row in rows {
        if row.flags & SCN_CNT_CODE != 0 {
            return row.rva;
        }
    }
    0
}
