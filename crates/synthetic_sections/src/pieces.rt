//! The pieces that the linker makes for imports, exports, debuggers and resources.

ghost use Rattle.std.specs.Prelude.{◌≡◌, ◌<◌, ◌+◌, ◌^◌, ◌∷◌, ◌++◌, [], map, unwrap_or, OnOk};
ghost use Rattle.std.specs.Option.{option_copied};
ghost use Rattle.section_group.specs.BarePieces.{bare};
ghost use Rattle.section_group.specs.PieceContents.{piece_contents};
ghost use Rattle.synthetic_sections.specs.LinkerPieces.{made_piece, table_if, table_pieces, export_table_pieces, debug_pieces, resource_pieces, no_bytes, thunk_piece, thunk_bytes, slot_piece, slot_bytes};

use link_base::pe_format::{SCN_CNT_CODE, SCN_CNT_INITIALIZED_DATA, SCN_MEM_EXECUTE, SCN_MEM_READ};
use link_base::{Memory, Name};
use section_group::Piece;

/// The number of the table of the slots.
pub const SLOTS: u32 = 2;

/// The number of the export table.
pub const EXPORTS: u32 = 5;

/// The number of the entry of the debug directory.
pub const DEBUG_ENTRY: u32 = 6;

/// The number of the data that the entry names.
pub const DEBUG_DATA: u32 = 7;

/// The number of the resource tree.
pub const RESOURCES: u32 = 8;

/// The size of the entry.
const ENTRY_SIZE: u32 = 28;

/// The number of the jump of the first module.
pub const FIRST_THUNK: u32 = 16;

/// The number of the first slot that points to what is linked.
pub const FIRST_LOCAL_SLOT: u32 = 131_072;

/// Initialised data that can be read.
const DATA_FLAGS: u32 = SCN_CNT_INITIALIZED_DATA | SCN_MEM_READ;

/// Code that can be run.
const CODE_FLAGS: u32 = SCN_CNT_CODE | SCN_MEM_EXECUTE | SCN_MEM_READ;

/// A jump through memory, whose field is the last four bytes.
const THUNK: &[u8] = b"\xff\x25\x00\x00\x00\x00";

/// An address stands at a multiple of eight.
const SLOT_ALIGN: u32 = 8;

/// Room for an address.
const SLOT: &[u8] = b"\x00\x00\x00\x00\x00\x00\x00\x00";

/// Appends the import tables of these sizes, as pieces of the module at a position: the directory, the lookup tables, the slots,
/// the hints with names and the names of DLLs (PE Format, "The .idata Section"). One without bytes is not made. They hold
/// nothing until they have places.
#[tactic(auto, unfolding(crate::specs::LinkerPieces::table_pieces))]
pub fn push_tables(
    pieces: &mut Vec<Piece<'_>>,
    position: u32,
    sizes: &[u32; 5],
) -> Result<(), Memory>
    ensures pieces { OnOk result (map bare pieces.new.items ≡ map bare pieces.old.items ++ table_pieces position sizes.now) }
    ensures contents { OnOk result (map piece_contents pieces.new.items ≡ map piece_contents pieces.old.items ++ map no_bytes (table_pieces position sizes.now)) }
{
    push_table(pieces, position, 0, b".idata$2", 4, sizes[0])?;
    push_table(pieces, position, 1, b".idata$4", 8, sizes[1])?;
    push_table(pieces, position, SLOTS, b".idata$5", 8, sizes[2])?;
    push_table(pieces, position, 3, b".idata$6", 2, sizes[3])?;
    push_table(pieces, position, 4, b".idata$7", 1, sizes[4])
}

/// Appends the export table of this size, as a piece of the module at a position (PE Format, "The .edata Section (Image Only)").
/// Without bytes it is not made. It holds nothing until it has a place.
#[tactic(auto, unfolding(crate::specs::LinkerPieces::export_table_pieces))]
pub fn push_export_table(
    pieces: &mut Vec<Piece<'_>>,
    position: u32,
    size: u32,
) -> Result<(), Memory>
    ensures pieces { OnOk result (map bare pieces.new.items ≡ map bare pieces.old.items ++ export_table_pieces position size) }
    ensures contents { OnOk result (map piece_contents pieces.new.items ≡ map piece_contents pieces.old.items ++ map no_bytes (export_table_pieces position size)) }
{
    push_table(pieces, position, EXPORTS, b".edata", 4, size)
}

/// Appends the debug directory, whose entry names data of this size, as pieces of the module at a position (PE Format, "Debug
/// Directory (Image Only)"). Without data there is no entry. They hold nothing until they have places.
#[tactic(auto, unfolding(crate::specs::LinkerPieces::debug_pieces))]
pub fn push_debug_directory(
    pieces: &mut Vec<Piece<'_>>,
    position: u32,
    size: u32,
) -> Result<(), Memory>
    ensures pieces { OnOk result (map bare pieces.new.items ≡ map bare pieces.old.items ++ debug_pieces position size) }
    ensures contents { OnOk result (map piece_contents pieces.new.items ≡ map piece_contents pieces.old.items ++ map no_bytes (debug_pieces position size)) }
{
    let entry = if size == 0 { 0 } else { ENTRY_SIZE };
    push_table(pieces, position, DEBUG_ENTRY, b".rdata", 4, entry)?;
    push_table(pieces, position, DEBUG_DATA, b".rdata", 4, size)
}

/// Appends the resource tree of this size, as a piece of the module at a position (PE Format, "The .rsrc Section"). Without
/// bytes it is not made. It holds nothing until it has a place.
#[tactic(auto, unfolding(crate::specs::LinkerPieces::resource_pieces))]
pub fn push_resource_tree(
    pieces: &mut Vec<Piece<'_>>,
    position: u32,
    size: u32,
) -> Result<(), Memory>
    ensures pieces { OnOk result (map bare pieces.new.items ≡ map bare pieces.old.items ++ resource_pieces position size) }
    ensures contents { OnOk result (map piece_contents pieces.new.items ≡ map piece_contents pieces.old.items ++ map no_bytes (resource_pieces position size)) }
{
    push_table(pieces, position, RESOURCES, b".rsrc", 4, size)
}

/// Appends one of the tables, where it has bytes.
fn push_table(
    pieces: &mut Vec<Piece<'_>>,
    position: u32,
    number: u32,
    name: &'static [u8],
    align: u32,
    size: u32,
) -> Result<(), Memory>
    ensures pieces { OnOk result (map bare pieces.new.items ≡ map bare pieces.old.items ++ table_if position number name.now align size) }
    ensures contents { OnOk result (map piece_contents pieces.new.items ≡ map piece_contents pieces.old.items ++ map no_bytes (table_if position number name.now align size)) }
{
    if size == 0 {
        return Ok(());
    }
    pieces.push(made(position, number, name, DATA_FLAGS, align, size, false, None))?;
    Ok(())
}

/// Appends the jump of the import in a module, as a piece of the module at a position.
pub fn push_thunk(pieces: &mut Vec<Piece<'_>>, position: u32, import: u32) -> Result<(), Memory>
    requires { import < 2 ^ 16 }
    ensures pieces { OnOk result (map bare pieces.new.items ≡ map bare pieces.old.items ++ thunk_piece position import ∷ []) }
    ensures contents { OnOk result (map piece_contents pieces.new.items ≡ map piece_contents pieces.old.items ++ thunk_bytes ∷ []) }
{
    let number = FIRST_THUNK + import;
    pieces.push(made(
        position,
        number,
        b".text",
        CODE_FLAGS,
        16,
        6,
        true,
        Some(THUNK),
    ))?;
    Ok(())
}

/// Appends the slot of a number, as a piece of the module at a position.
pub fn push_slot(pieces: &mut Vec<Piece<'_>>, position: u32, slot: u32) -> Result<(), Memory>
    requires { slot < 2 ^ 31 }
    ensures pieces { OnOk result (map bare pieces.new.items ≡ map bare pieces.old.items ++ slot_piece position slot ∷ []) }
    ensures contents { OnOk result (map piece_contents pieces.new.items ≡ map piece_contents pieces.old.items ++ slot_bytes ∷ []) }
{
    let number = FIRST_LOCAL_SLOT + slot;
    pieces.push(made(
        position,
        number,
        b".rdata",
        DATA_FLAGS,
        SLOT_ALIGN,
        8,
        false,
        Some(SLOT),
    ))?;
    Ok(())
}

/// A piece that the linker makes, with its bytes where these are known.
fn made(
    position: u32,
    number: u32,
    name: &'static [u8],
    flags: u32,
    align: u32,
    size: u32,
    named: bool,
    body: Option<&'static [u8]>,
) -> Piece<'static>
    ensures piece { bare result ≡ made_piece position number name.now flags align size named }
    ensures contents { piece_contents result ≡ unwrap_or (option_copied body.entry) [] }
{
    Piece {
        module: position,
        number,
        name: Name::of(name),
        flags,
        size,
        align,
        body,
        init: true,
        named,
    }
}
