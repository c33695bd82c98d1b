//! The text of a map, line by line.

ghost use Rattle.std.specs.Prelude.{◌≡◌, ◌++◌, OnOk, IfOk};
ghost use Rattle.std.specs.List.{flat_map};
ghost use Rattle.map_file.specs.MapText.{image_line, module_field, module_line, module_lines, section_line, section_lines, piece_line, public_line, map_text};

use crate::field::{Field, push_line};
use crate::rows::{MapModule, MapPiece, MapPublic, MapRows, MapSection};
use link_base::{Memory, Name};
use std::alloc::Global;

/// The map of an image. The lists are printed in their order.
///
/// # Errors
///
/// `Memory` alone.
pub fn map_text(alloc: Global, rows: &MapRows<'_>) -> Result<Vec<u8>, Memory>
    ensures { IfOk result (λ text. text.items ≡ map_text rows.now) }
{
    let mut out = Vec::new(alloc);
    push_image(alloc, &mut out, rows.base, rows.image, rows.entry)?;
    push_modules(alloc, &mut out, &rows.modules)?;
    push_sections(alloc, &mut out, &rows.sections)?;
    push_pieces(alloc, &mut out, &rows.pieces)?;
    push_publics(alloc, &mut out, &rows.publics)?;
    Ok(out)
}

#[tactic(auto, unfolding(crate::specs::MapText::image_line))]
fn push_image(
    alloc: Global,
    out: &mut Vec<u8>,
    base: u64,
    size: u32,
    entry: u32,
) -> Result<(), Memory>
    ensures { OnOk result (out.new.items ≡ out.old.items ++ image_line base size entry) }
{
    push_line(
        alloc,
        out,
        b"image",
        &[
            Field::Address(base),
            Field::Hexadecimal(size),
            Field::Text(Name::of(b"entry")),
            Field::Hexadecimal(entry),
        ],
    )
}

fn push_modules(alloc: Global, out: &mut Vec<u8>, rows: &[MapModule<'_>]) -> Result<(), Memory>
    ensures { OnOk result (out.new.items ≡ out.old.items ++ module_lines rows.now) }
{
    for (position, row) in rows.iter().enumerate() {
        push_module(alloc, out, position as u64, row)?;
    }
    Ok(())
}

#[tactic(auto, unfolding(crate::specs::MapText::module_line))]
fn push_module(
    alloc: Global,
    out: &mut Vec<u8>,
    position: u64,
    row: &MapModule<'_>,
) -> Result<(), Memory>
    ensures { OnOk result (out.new.items ≡ out.old.items ++ module_line (position, row.now)) }
{
    push_line(
        alloc,
        out,
        b"module",
        &[Field::Decimal(position), module_field(row)],
    )
}

/// The file of a module and, where it has one, the member.
fn module_field<'a>(row: &MapModule<'a>) -> Field<'a>
    ensures { result ≡ module_field row.now row.now.member }
{
    match &row.member {
        Some(member) => Field::Member(row.file.again(), member.again()),
        None => Field::Text(row.file.again()),
    }
}

fn push_sections(alloc: Global, out: &mut Vec<u8>, rows: &[MapSection<'_>]) -> Result<(), Memory>
    ensures { OnOk result (out.new.items ≡ out.old.items ++ section_lines rows.now) }
{
    for (index, row) in rows.iter().enumerate() {
        push_section(alloc, out, index as u64 + 1, row)?;
    }
    Ok(())
}

#[tactic(auto, unfolding(crate::specs::MapText::section_line))]
fn push_section(
    alloc: Global,
    out: &mut Vec<u8>,
    number: u64,
    row: &MapSection<'_>,
) -> Result<(), Memory>
    ensures { OnOk result (out.new.items ≡ out.old.items ++ section_line (number, row.now)) }
{
    push_line(
        alloc,
        out,
        b"section",
        &[
            Field::Decimal(number),
            Field::Text(row.name.again()),
            Field::Hexadecimal(row.rva),
            Field::Hexadecimal(row.size),
            Field::Hexadecimal(row.flags),
        ],
    )
}

fn push_pieces(alloc: Global, out: &mut Vec<u8>, rows: &[MapPiece<'_>]) -> Result<(), Memory>
    ensures { OnOk result (out.new.items ≡ out.old.items ++ flat_map piece_line rows.now) }
{
    for row in rows {
        push_piece(alloc, out, row)?;
    }
    Ok(())
}

#[tactic(auto, unfolding(crate::specs::MapText::piece_line))]
fn push_piece(alloc: Global, out: &mut Vec<u8>, row: &MapPiece<'_>) -> Result<(), Memory>
    ensures { OnOk result (out.new.items ≡ out.old.items ++ piece_line row.now) }
{
    push_line(
        alloc,
        out,
        b"piece",
        &[
            Field::Hexadecimal(row.rva),
            Field::Hexadecimal(row.size),
            Field::Decimal(u64::from(row.module)),
            Field::Text(row.name.again()),
        ],
    )
}

fn push_publics(alloc: Global, out: &mut Vec<u8>, rows: &[MapPublic<'_>]) -> Result<(), Memory>
    ensures { OnOk result (out.new.items ≡ out.old.items ++ flat_map public_line rows.now) }
{
    for row in rows {
        push_public(alloc, out, row)?;
    }
    Ok(())
}

#[tactic(auto, unfolding(crate::specs::MapText::public_line))]
fn push_public(alloc: Global, out: &mut Vec<u8>, row: &MapPublic<'_>) -> Result<(), Memory>
    ensures { OnOk result (out.new.items ≡ out.old.items ++ public_line row.now) }
{
    push_line(
        alloc,
        out,
        b"public",
        &[
            Field::Hexadecimal(row.rva),
            Field::Decimal(u64::from(row.module)),
            Field::Text(row.name.again()),
        ],
    )
}
