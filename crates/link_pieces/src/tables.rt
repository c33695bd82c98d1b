//! The tables that the linker makes as pieces.

ghost use Rattle.std.specs.Prelude.{◌≡◌, ◌++◌, Bool, List, map, OnOk, length};
ghost use Rattle.section_group.specs.BarePieces.{bare};
ghost use Rattle.section_group.specs.PieceContents.{piece_contents};
ghost use Rattle.synthetic_sections.specs.LinkerPieces.{no_bytes};
ghost use Rattle.module_view.specs.Module.{ModuleView};
ghost use Rattle.link_imports.specs.Imports.{import_sizes};
ghost use Rattle.link_pieces.specs.TablePieces.{tables_for};

use link_base::Memory;
use section_group::Piece;
use synthetic_sections::{
    push_debug_directory, push_export_table, push_resource_tree, push_tables as push_import_tables,
};

/// Appends the import tables of these sizes, the export table of this size, the debug directory with data of this size, and the
/// resource tree of this size, as pieces of the module at a position. One without bytes is not made. They hold nothing until
/// they have places.
pub fn push_tables(
    pieces: &mut Vec<Piece<'_>>,
    position: u32,
    imports: &[u32; 5],
    exports: u32,
    debug: u32,
    resources: u32,
) -> Result<(), Memory>
    ensures pieces { OnOk result ((modules : List ModuleView) (kept : List Bool) → position ≡ length modules → imports.now ≡ import_sizes modules kept
        → map bare pieces.new.items ≡ map bare pieces.old.items ++ tables_for modules kept exports debug resources) }
    ensures contents { OnOk result ((modules : List ModuleView) (kept : List Bool) → position ≡ length modules → imports.now ≡ import_sizes modules kept
        → map piece_contents pieces.new.items ≡ map piece_contents pieces.old.items ++ map no_bytes (tables_for modules kept exports debug resources)) }
{
    push_import_tables(pieces, position, imports)?;
    push_export_table(pieces, position, exports)?;
    push_debug_directory(pieces, position, debug)?;
    push_resource_tree(pieces, position, resources)
}
