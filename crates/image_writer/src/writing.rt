//! The whole image file.

ghost use Rattle.std.specs.Prelude.{◌≡◌, ◌<◌, ◌^◌, map, IfOk};
ghost use Rattle.address_layout.specs.Growth.{raw_end};
ghost use Rattle.image_writer.specs.ExpectedImage.{image_file};
ghost use Rattle.section_group.specs.PieceContents.{piece_contents};
ghost use Rattle.image_writer.specs.WrittenImage.{at_each_base, layout_plan, IsLaidOut, HasContents};

use crate::headers::{Headers, push_headers};
use crate::raw_data::push_sections;
use crate::section_table::table_of;
use address_layout::Layout;
use link_base::Memory;
use section_group::{OutSection, Piece};
use std::alloc::Global;

/// The file of an image: its headers, and after them the raw data of each section, as long as its raw size, with the bytes of
/// each initialised piece at its place and zeros elsewhere.
pub fn image(
    alloc: Global,
    headers: &Headers,
    layout: &Layout,
    sections: &[OutSection<'_>],
    pieces: &[Piece<'_>],
) -> Result<Vec<u8>, Memory>
    requires laid_out { IsLaidOut pieces.now sections.now layout.now }
    requires contents { HasContents pieces.now sections.now }
    ensures { IfOk result (λ image. image.items ≡ image_file (layout_plan headers.now sections.now layout.now
        (at_each_base (map piece_contents pieces.now)))) }
{
    let table = table_of(alloc, sections, &layout.sections)?;
    let mut out = Vec::with_capacity(alloc, file_len(layout))?;
    push_headers(&mut out, headers, &table, layout.image)?;
    push_sections(&mut out, layout, sections, pieces)?;
    Ok(out)
}

/// The length of the file.
fn file_len(layout: &Layout) -> usize
    requires { raw_end layout.now < 2 ^ 32 }
    ensures { result ≡ raw_end layout.now }
{
    let mut len = layout.headers as usize;
    for placed in &layout.sections {
        len += placed.raw as usize;
    }
    len
}
