//! The jumps that the linker makes for imports of code.

ghost use Rattle.std.specs.Prelude.{◌≡◌, ◌≤◌, ◌<◌, ◌^◌, ◌++◌, ◌∷◌, [], length, map, if◌then◌else◌, OnOk};
ghost use Rattle.link_base.specs.Limits.{MODULE_LIMIT};
ghost use Rattle.section_group.specs.BarePieces.{bare};
ghost use Rattle.section_group.specs.PieceContents.{piece_contents};
ghost use Rattle.synthetic_sections.specs.LinkerPieces.{thunk_piece, thunk_bytes};
ghost use Rattle.link_imports.specs.ImportPieces.{imports_code, thunk_pieces, thunk_contents};

use link_base::Memory;
use module_view::Module;
use section_group::Piece;
use short_import::ImportKind;
use synthetic_sections::push_thunk;

/// Appends a jump for each import of code, as pieces of the module behind these.
pub fn push_thunks<'a>(pieces: &mut Vec<Piece<'a>>, modules: &[Module<'a>]) -> Result<(), Memory>
    requires { length modules.now ≤ MODULE_LIMIT }
    ensures pieces { OnOk result (map bare pieces.new.items ≡ map bare pieces.old.items ++ thunk_pieces modules.now) }
    ensures contents { OnOk result (map piece_contents pieces.new.items ≡ map piece_contents pieces.old.items ++ thunk_contents modules.now) }
{
    let position = modules.len() as u32;
    for import in 0..modules.len() {
        push_thunk_of(pieces, position, import as u32, &modules[import])?;
    }
    Ok(())
}

/// Appends a jump for a module at a position, where it is an import of code, as a piece of the linker's module.
fn push_thunk_of<'a>(
    pieces: &mut Vec<Piece<'a>>,
    position: u32,
    import: u32,
    module: &Module<'a>,
) -> Result<(), Memory>
    requires { import < 2 ^ 16 }
    ensures pieces { OnOk result (map bare pieces.new.items ≡ map bare pieces.old.items
        ++ (if imports_code «module».now.imported then thunk_piece position import ∷ [] else [])) }
    ensures contents { OnOk result (map piece_contents pieces.new.items ≡ map piece_contents pieces.old.items
        ++ (if imports_code «module».now.imported then thunk_bytes ∷ [] else [])) }
{
    if is_code(module) {
        push_thunk(pieces, position, import)?;
    }
    Ok(())
}

/// Whether a module is an import of code.
fn is_code(module: &Module<'_>) -> bool
    ensures { result ≡ imports_code «module».now.imported }
{
    match module.import() {
        Some(import) => import.kind == ImportKind::Code,
        None => false,
    }
}
