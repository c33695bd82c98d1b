//! The file of the image, before its fields are patched.

ghost use Rattle.std.specs.Prelude.{◌≡◌, ◌<◌, ◌^◌, ◌∷◌, ◌++◌, [], true, false, Some, length, map, slice_index_or, option_copied, IfOk};
ghost use Rattle.std.specs.List.{All};
ghost use Rattle.section_group.specs.BarePieces.{bare};
ghost use Rattle.section_group.specs.PieceContents.{piece_contents};
ghost use Rattle.link_pieces.specs.TablePieces.{is_table};
ghost use Rattle.link_words.specs.Outcome.{options_said};
ghost use Rattle.link_plan.specs.Plan.{IsPlanOf, kept_parts};
ghost use Rattle.link_image.specs.LinkedBytes.{tables_at};
ghost use Rattle.link_image.specs.Steps.{AreWhole, CanBeGiven, all_bytes, HoldTables, IsPlaced, IsWritten, given_contents, reloc_tables};

use crate::placement::{Placement, TABLE_FLAGS};
use image_writer::{Headers, image};
use link_base::{Memory, Name};
use link_plan::LinkPlan;
use link_words::Options;
use section_group::Piece;
use std::alloc::Global;
use synthetic_sections::FIRST_THUNK;

/// The file of the image with these headers, of the pieces of a plan at their places, of which the import tables and the others have these bytes, and
/// the table of base relocations after them.
pub(crate) fn write_file<'a>(
    alloc: Global,
    plan: &LinkPlan<'a>,
    options: &Options<'a>,
    headers: &Headers,
    placement: &Placement<'a>,
    imports: &[Vec<u8>; 5],
    others: &[Vec<u8>; 4],
) -> Result<Vec<u8>, Memory>
    requires plan { IsPlanOf (options_said options.now) plan.now.modules.items plan.now }
    requires placed { IsPlaced (options_said options.now) plan.now placement.now }
    requires tables { all_bytes imports.now others.now ≡ tables_at (kept_parts plan.now) placement.now.layout }
    ensures { IfOk result (λ image. IsWritten headers.now placement.now (kept_parts plan.now) image.items) }
{
    let position = plan.modules.len();
    let pieces = whole_pieces(
        alloc,
        position,
        &plan.pieces,
        imports,
        others,
        &placement.table,
    )?;
    image(
        alloc,
        headers,
        &placement.layout,
        &placement.sections,
        &pieces,
    )
}

/// The pieces with the bytes of the tables, whose module is at a position, and the table of base relocations as the last.
fn whole_pieces<'b, 'a: 'b>(
    alloc: Global,
    position: usize,
    pieces: &[Piece<'a>],
    imports: &'b [Vec<u8>; 5],
    others: &'b [Vec<u8>; 4],
    table: &'b Option<Vec<u8>>,
) -> Result<Vec<Piece<'b>>, Memory>
    requires given { All (λ piece. is_table position piece ≡ true → CanBeGiven piece) pieces.now }
    requires small { All (λ table. length table < 2 ^ 32) (reloc_tables table.now) }
    ensures { IfOk result (λ whole. AreWhole position (all_bytes imports.now others.now) (reloc_tables table.now) pieces.now whole.items) }
{
    let mut whole = Vec::with_capacity(alloc, pieces.len() + 1)?;
    for piece in pieces {
        whole.push(with_table(position, piece, imports, others))?;
    }
    let Some(table) = table else {
        return Ok(whole);
    };
    whole.push(relocations(table))?;
    Ok(whole)
}

/// The piece once more, with its bytes where it is a table.
fn with_table<'b, 'a: 'b>(
    position: usize,
    piece: &Piece<'a>,
    imports: &'b [Vec<u8>; 5],
    others: &'b [Vec<u8>; 4],
) -> Piece<'b>
    requires { is_table position piece.now ≡ true → CanBeGiven piece.now }
    ensures same { bare result ≡ bare piece.now }
    ensures contents { piece_contents result ≡ given_contents position (all_bytes imports.now others.now) piece.now }
{
    Piece {
        module: piece.module,
        number: piece.number,
        name: piece.name.again(),
        flags: piece.flags,
        size: piece.size,
        align: piece.align,
        body: given_body(position, piece, imports, others),
        init: piece.init,
        named: piece.named,
    }
}

/// The bytes of a table, or those that another piece has.
fn given_body<'b, 'a: 'b>(
    position: usize,
    piece: &Piece<'a>,
    imports: &'b [Vec<u8>; 5],
    others: &'b [Vec<u8>; 4],
) -> Option<&'b [u8]>
    requires { is_table position piece.now ≡ true → CanBeGiven piece.now }
    ensures table { is_table position piece.now ≡ true → option_copied result ≡ Some (slice_index_or (all_bytes imports.now others.now) piece.now.number []) }
    ensures other { is_table position piece.now ≡ false → result ≡ piece.now.body }
{
    if piece.module as usize != position || piece.number >= FIRST_THUNK {
        return piece.body;
    }
    let number = piece.number as usize;
    if number < imports.len() {
        return Some(&imports[number]);
    }
    Some(&others[number - imports.len()])
}

/// The piece that holds the table of base relocations.
fn relocations<'b>(table: &'b [u8]) -> Piece<'b>
    requires { length table.now < 2 ^ 32 }
    ensures { HoldTables (table.now ∷ []) (result ∷ []) }
{
    Piece {
        module: 0,
        number: 0,
        name: Name::of(b".reloc"),
        flags: TABLE_FLAGS,
        size: table.len() as u32,
        align: 4,
        body: Some(table),
        init: true,
        named: false,
    }
}
