//! The rows of the section table.

ghost use Rattle.std.specs.Prelude.{◌≡◌, length, IfOk};
ghost use Rattle.section_group.specs.Uniqueness.{row_of, rows_of};
ghost use Rattle.image_writer.specs.WrittenImage.{header_row, section_rows};

use crate::headers::SectionHeader;
use address_layout::Placed;
use link_base::Memory;
use section_group::OutSection;
use std::alloc::Global;

/// What the section table says of each section.
pub(crate) fn table_of<'a>(
    alloc: Global,
    sections: &[OutSection<'a>],
    placed: &[Placed],
) -> Result<Vec<SectionHeader<'a>>, Memory>
    requires { length placed.now ≡ length sections.now }
    ensures { IfOk result (λ rows. rows.items ≡ section_rows (rows_of sections.now) placed.now) }
{
    let mut rows = Vec::with_capacity(alloc, sections.len())?;
    for (i, section) in sections.iter().enumerate() {
        rows.push(row(section, &placed[i]))?;
    }
    Ok(rows)
}

fn row<'a>(section: &OutSection<'a>, placed: &Placed) -> SectionHeader<'a>
    ensures { result ≡ header_row (row_of section.now) placed.now }
{
    SectionHeader {
        name: section.name.again(),
        size: placed.size,
        rva: placed.rva,
        raw_size: placed.raw,
        file_offset: placed.file,
        flags: section.flags,
    }
}
