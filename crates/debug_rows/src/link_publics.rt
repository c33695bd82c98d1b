//! Where the public symbols of a link stand: the names that its modules define for others.

ghost use Rattle.std.specs.Prelude.{◌≡◌, ◌<◌, ◌≤◌, ◌^◌, ◌++◌, [], length, map, filter_map, option_map, IfOk, OnOk};
ghost use Rattle.std.specs.List.{cons_option};
ghost use Rattle.link_base.specs.Limits.{MODULE_LIMIT};
ghost use Rattle.coff_records.specs.ObjectFile.{symbol_entries};
ghost use Rattle.section_group.specs.BarePieces.{bare};
ghost use Rattle.link_pieces.specs.PieceIndex.{IsPieceIndex};
ghost use Rattle.link_pieces.specs.Pieces.{link_pieces};
ghost use Rattle.debug_rows.specs.Publics.{symbol_piece, own_piece, public_at, symbol_public, made_public, common_public, module_publics, publics_of};

use crate::slot_publics::push_slots;
use coff_object::{Object, SymbolRecord};
use link_base::pe_format::{SYM_CLASS_EXTERNAL, SYM_UNDEFINED};
use link_base::{Memory, Name};
use link_pieces::{LinkNames, PieceIndex};
use module_view::{Common, Definition, Module, Place};
use section_group::Piece;
use std::alloc::Global;

/// The type of a symbol that is a function (PE Format, "Type Representation").
const FUNCTION: u16 = 0x20;

/// A public symbol: its name, the position of the module that makes it, whether it is a function, and where it stands: in which
/// piece, or behind the pieces in which import, and at which offset.
#[derive(Drop)]
pub struct PublicPlace<'a> {
    pub name: Name<'a>,
    pub module: u32,
    pub function: bool,
    pub piece: u32,
    pub value: u32,
}

/// The public symbols of the modules of a link: the external symbols in those of their sections that take part and come into
/// the image, the commons that names mean, and of an import its slot and its jump; and behind them the local slots. An absolute
/// number is none.
pub fn public_places<'a>(
    alloc: Global,
    names: &LinkNames<'a>,
    index: &PieceIndex<'a>,
    modules: &[Module<'a>],
    pieces: &[Piece<'a>],
) -> Result<Vec<PublicPlace<'a>>, Memory>
    requires same { names.now.modules ≡ modules.now }
    requires few { length modules.now ≤ MODULE_LIMIT }
    requires few_pieces { length pieces.now < 2 ^ 32 }
    requires indexed { IsPieceIndex names.now index.now }
    requires pieces { map bare pieces.now ≡ link_pieces names.now }
    ensures { IfOk result (λ publics. publics.items ≡ publics_of names.now) }
{
    let mut publics = Vec::new(alloc);
    let count = modules.len() as u32;
    for position in 0..count {
        push_module(
            &mut publics,
            names,
            index,
            count,
            &modules[position as usize],
            position,
        )?;
    }
    push_slots(&mut publics, names, index, count, pieces)?;
    Ok(publics)
}

/// Appends those of the module at a position.
#[tactic(auto, unfolding(crate::specs::Publics::module_publics))]
fn push_module<'a>(
    publics: &mut Vec<PublicPlace<'a>>,
    names: &LinkNames<'a>,
    index: &PieceIndex<'a>,
    modules: u32,
    module: &Module<'a>,
    position: u32,
) -> Result<(), Memory>
    requires indexed { IsPieceIndex names.now index.now }
    requires modules { modules ≡ length names.now.modules }
    ensures { OnOk result (publics.new.items ≡ publics.old.items ++ module_publics names.now position «module».now) }
{
    if let Some(object) = module.object() {
        push_symbols(publics, names, index, object, position)?;
    }
    push_made(
        publics,
        names,
        index,
        modules,
        module.definitions(),
        position,
    )?;
    push_commons(publics, names, index, module.commons(), position)
}

/// Appends those of the symbols of the object of the module at a position.
fn push_symbols<'a>(
    publics: &mut Vec<PublicPlace<'a>>,
    names: &LinkNames<'a>,
    index: &PieceIndex<'a>,
    object: &Object<'a>,
    position: u32,
) -> Result<(), Memory>
    requires indexed { IsPieceIndex names.now index.now }
    ensures { OnOk result (publics.new.items ≡ publics.old.items ++ filter_map (symbol_public names.now position) (symbol_entries object.now)) }
{
    for (at, symbol) in object.symbols() {
        push_symbol(publics, names, index, at, &symbol, position)?;
    }
    Ok(())
}

/// Appends that of a symbol, where it is one.
fn push_symbol<'a>(
    publics: &mut Vec<PublicPlace<'a>>,
    names: &LinkNames<'a>,
    index: &PieceIndex<'a>,
    at: u32,
    symbol: &SymbolRecord<'a>,
    position: u32,
) -> Result<(), Memory>
    requires indexed { IsPieceIndex names.now index.now }
    ensures { OnOk result (publics.new.items ≡ publics.old.items ++ cons_option (symbol_public names.now position (at, symbol.now)) []) }
{
    let Some(piece) = symbol_piece(names, index, symbol, position) else {
        return Ok(());
    };
    publics.push(PublicPlace {
        name: symbol.name(),
        module: position,
        function: symbol.kind() == FUNCTION,
        piece,
        value: symbol.value(),
    })?;
    Ok(())
}

/// The piece that a symbol stands in, where other modules can name it, and it stands in one.
#[tactic(auto, unfolding(crate::specs::Publics::symbol_piece))]
fn symbol_piece(
    names: &LinkNames<'_>,
    index: &PieceIndex<'_>,
    symbol: &SymbolRecord<'_>,
    position: u32,
) -> Option<u32>
    requires { IsPieceIndex names.now index.now }
    ensures { result ≡ symbol_piece names.now position symbol.now }
{
    let section = symbol.section();
    if symbol.class() == SYM_CLASS_EXTERNAL && section > SYM_UNDEFINED {
        return own_piece(names, index, position, section as u32);
    }
    None
}

/// The piece that is a section of the module at a position, where it takes part and comes into the image.
fn own_piece(
    names: &LinkNames<'_>,
    index: &PieceIndex<'_>,
    position: u32,
    section: u32,
) -> Option<u32>
    requires { IsPieceIndex names.now index.now }
    ensures { result ≡ own_piece names.now position section }
{
    if !names.takes_part(position, section) {
        return None;
    }
    index.of(position, section)
}

/// Appends those of what an import defines, which the linker makes.
fn push_made<'a>(
    publics: &mut Vec<PublicPlace<'a>>,
    names: &LinkNames<'a>,
    index: &PieceIndex<'a>,
    modules: u32,
    definitions: &[Definition<'a>],
    position: u32,
) -> Result<(), Memory>
    requires indexed { IsPieceIndex names.now index.now }
    requires modules { modules ≡ length names.now.modules }
    ensures { OnOk result (publics.new.items ≡ publics.old.items ++ filter_map (made_public names.now position) definitions.now) }
{
    for definition in definitions {
        push_definition(publics, names, index, modules, definition, position)?;
    }
    Ok(())
}

/// Appends that of what an import defines: its slot, or its jump.
fn push_definition<'a>(
    publics: &mut Vec<PublicPlace<'a>>,
    names: &LinkNames<'a>,
    index: &PieceIndex<'a>,
    modules: u32,
    definition: &Definition<'a>,
    position: u32,
) -> Result<(), Memory>
    requires indexed { IsPieceIndex names.now index.now }
    requires modules { modules ≡ length names.now.modules }
    ensures { OnOk result (publics.new.items ≡ publics.old.items ++ cons_option (made_public names.now position definition.now) []) }
{
    match definition.place {
        Place::Section { .. } | Place::Absolute(_) => Ok(()),
        Place::Slot => push_at(
            publics,
            &definition.name,
            position,
            false,
            index.of_import(position),
        ),
        Place::Thunk => push_at(
            publics,
            &definition.name,
            modules,
            true,
            index.of_thunk(position),
        ),
    }
}

/// Appends that of a name at the start of a piece, where there is one.
pub(crate) fn push_at<'a>(
    publics: &mut Vec<PublicPlace<'a>>,
    name: &Name<'a>,
    module: u32,
    function: bool,
    piece: Option<u32>,
) -> Result<(), Memory>
    ensures { OnOk result (publics.new.items ≡ publics.old.items ++ cons_option (option_map (public_at name.now «module» function 0) piece) []) }
{
    if let Some(piece) = piece {
        publics.push(PublicPlace {
            name: name.again(),
            module,
            function,
            piece,
            value: 0,
        })?;
    }
    Ok(())
}

/// Appends those of the commons of the module at a position.
fn push_commons<'a>(
    publics: &mut Vec<PublicPlace<'a>>,
    names: &LinkNames<'a>,
    index: &PieceIndex<'a>,
    commons: &[Common<'a>],
    position: u32,
) -> Result<(), Memory>
    requires indexed { IsPieceIndex names.now index.now }
    ensures { OnOk result (publics.new.items ≡ publics.old.items ++ filter_map (common_public names.now position) commons.now) }
{
    for common in commons {
        push_at(
            publics,
            &common.name,
            position,
            false,
            index.of_common(position, common.symbol),
        )?;
    }
    Ok(())
}
