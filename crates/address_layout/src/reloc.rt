//! The section of base relocations, after all others.

ghost use Rattle.std.specs.Prelude.{◌≡◌, ◌==◌, ◌^◌, ◌+◌, ◌<◌, if◌then◌else◌, ◌≤◌, ◌++◌, ◌∷◌, [], OnOk, OnErr, IfErr};
ghost use Rattle.link_base.specs.Limits.{IMAGE_LIMIT};
ghost use Rattle.address_layout.specs.Growth.{last_end, raw_end, grown_size, CanGrow, Appends, SameLayout, IsGrowRefusal};

use crate::layout::{Layout, LayoutError, MAX_IMAGE, Placed, RAW_ALIGNMENT, SECTION_ALIGNMENT};
use crate::round::round_up;
use std::alloc::Global;

/// Adds the section of base relocations, which is that many bytes long, and its RVA as that of the last piece. The layout
/// is one that `place` made with room for this section's header.
///
/// # Errors
///
/// `ImageTooLarge` with the size in memory above 512 MiB. The layout is then as it was.
pub fn append_reloc(_alloc: Global, layout: &mut Layout, length: u32) -> Result<(), LayoutError>
    requires { CanGrow layout.old }
    ensures added { OnOk result (Appends layout.old layout.new length) }
    ensures within { OnOk result (layout.new.image ≤ IMAGE_LIMIT) }

    ensures refused { IfErr result (IsGrowRefusal layout.old length) }
    ensures unchanged { OnErr result (SameLayout layout.old layout.new) }
{
    let start = round_up(u64::from(end_of(layout)), SECTION_ALIGNMENT);
    let size = grown_size(length);
    let image = round_up(start + u64::from(size), SECTION_ALIGNMENT);
    if image > MAX_IMAGE {
        return Err(LayoutError::ImageTooLarge(image));
    }
    let raw = round_up(u64::from(length), RAW_ALIGNMENT) as u32;
    let placed = Placed {
        rva: start as u32,
        size,
        raw,
        file: file_place(layout, raw),
    };
    push_placed(layout, placed)?;
    layout.image = image as u32;
    Ok(())
}

/// The size in memory of a section of that many bytes.
fn grown_size(length: u32) -> u32
    ensures value { result ≡ grown_size length }
    ensures long { length ≤ result }
    ensures small { result < 2 ^ 32 }
{
    if length == 0 { 1 } else { length }
}

/// The file offset of raw data of a length after all others.
fn file_place(layout: &Layout, raw: u32) -> u32
    requires { CanGrow layout.now }
    ensures { result ≡ (if raw == 0 then 0 else raw_end layout.now) }
{
    if raw == 0 { 0 } else { file_end(layout) }
}

/// Adds a section and its RVA, or leaves both lists as they were.
fn push_placed(layout: &mut Layout, placed: Placed) -> Result<(), LayoutError>
    ensures headers { layout.new.headers ≡ layout.old.headers }
    ensures image { layout.new.image ≡ layout.old.image }
    ensures sections { OnOk result (layout.new.sections.items ≡ layout.old.sections.items ++ placed ∷ []) }
    ensures pieces { OnOk result (layout.new.pieces.items ≡ layout.old.pieces.items ++ placed.rva ∷ []) }

    ensures unchanged { OnErr result (SameLayout layout.old layout.new) }
    ensures refused { IfErr result (λ e. e ≡ LayoutError.Memory) }
{
    layout.pieces.push(placed.rva)?;
    if layout.sections.push(placed).is_err() {
        let _ = layout.pieces.pop();
        return Err(LayoutError::Memory);
    }
    Ok(())
}

/// The end of the last section, or of the headers.
fn end_of(layout: &Layout) -> u32
    requires { CanGrow layout.now }
    ensures value { result ≡ last_end layout.now }
    ensures small { result ≤ IMAGE_LIMIT }
{
    match layout.sections.last() {
        Some(placed) => placed.rva + placed.size,
        None => layout.headers,
    }
}

/// The end of the raw data.
fn file_end(layout: &Layout) -> u32
    requires { CanGrow layout.now }
    ensures { result ≡ raw_end layout.now }
{
    let mut end = layout.headers;
    for placed in &layout.sections {
        end += placed.raw;
    }
    end
}
