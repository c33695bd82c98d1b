//! The relocations of all pieces, judged before anything is laid out.

ghost use Rattle.std.specs.Prelude.{◌≡◌, ◌≤◌, ◌<◌, ◌^◌, None, Some, false, ◌++◌, ◌∷◌, [], length, map, Option, option_and_then, IfOk, OnOk, IfErr};
ghost use Rattle.link_base.specs.Refusals.{RefusesFor};
ghost use Rattle.section_group.specs.BarePieces.{bare};
ghost use Rattle.section_group.specs.PieceContents.{piece_contents};
ghost use Rattle.relocate.specs.declared.error.FieldError.{FieldError};
ghost use Rattle.relocate.specs.FieldFaults.{field_fault, RefusesFor as RefusesField};
ghost use Rattle.relocate.specs.Judged.{AreTheFields, ArePatchable, len_of};
ghost use Rattle.link_pieces.specs.Pieces.{link_pieces, link_contents, IsPieceOf};
ghost use Rattle.link_pieces.specs.PieceIndex.{IsPieceIndex};
ghost use Rattle.link_fields.specs.Pdata.{is_pdata};
ghost use Rattle.link_fields.specs.Fixes.{judged_fault, refused_at, fixes_in, fixes_fault, field_edges, len_if, HaveFields, HasSameEdges};
ghost use Rattle.link_fields.specs.Steps.{HoldsTargets};

use crate::edges::{Edges, push_edges};
use crate::fixes::{LastTargets, linker_fixes, section_fixes};
use crate::pdata::is_pdata;
use link_base::{Fault, Memory, Refusal};
use link_pieces::{FIRST_COMMON, LinkNames, PieceIndex, TABLES};
use module_view::Module;
use relocate::{FieldError, Fixups, PackedFix, check_list};
use section_group::Piece;
use std::alloc::Global;

/// The fields of all pieces, and what these lead to.
#[derive(Drop)]
pub struct JudgedFixes {
    /// Those of each piece.
    pub fixups: Vec<Fixups>,
    /// For the fields in a piece that mean another piece or an import, the piece and what they mean: each pair at least once.
    pub edges: Vec<(u32, u32)>,
}

/// Judges the relocations of the pieces, in the order of the pieces. The first that has a fault is refused.
pub fn judge_pieces<'a>(
    alloc: Global,
    names: &LinkNames<'a>,
    index: &PieceIndex<'a>,
    modules: &[Module<'a>],
    pieces: &[Piece<'a>],
    large: bool,
) -> Result<JudgedFixes, Refusal<'a>>
    requires same { names.now.modules ≡ modules.now }
    requires indexed { IsPieceIndex names.now index.now }
    requires pieces { map bare pieces.now ≡ link_pieces names.now }
    requires contents { map piece_contents pieces.now ≡ link_contents names.now }
    requires few { length pieces.now < 2 ^ 31 }
    ensures fields { IfOk result (λ fixes. HaveFields names.now (length pieces.now) fixes.fixups.items) }
    ensures edges { IfOk result (λ fixes. HasSameEdges (field_edges names.now) fixes.edges.items) }
    ensures accepted { OnOk result (fixes_fault names.now large ≡ None) }
    ensures refused { IfErr result (RefusesFor (fixes_fault names.now large)) }
{
    let mut fixups = Vec::with_capacity(alloc, pieces.len() + TABLES)?;
    let mut edges = Edges::none(alloc, pieces.len() + modules.len())?;
    let mut last = LastTargets::none(alloc);
    for k in 0..pieces.len() {
        let piece = &pieces[k];
        let fixes = read_fixes(alloc, &mut last, names, index, modules, piece)?;
        push_edges(&mut edges, k as u32, &fixes)?;
        match judge(alloc, piece, fixes, large) {
            Ok(fields) => keep(&mut fixups, fields)?,
            Err(error) => return Err(refusal(piece, error)),
        }
    }
    Ok(JudgedFixes {
        fixups,
        edges: edges.list,
    })
}

/// Appends the fields of a piece.
fn keep(fixups: &mut Vec<Fixups>, fields: Fixups) -> Result<(), Memory>
    ensures { OnOk result (fixups.new.items ≡ fixups.old.items ++ fields ∷ []) }
{
    fixups.push(fields)?;
    Ok(())
}

/// The relocations of a piece. A common has none.
fn read_fixes<'a>(
    alloc: Global,
    last: &mut LastTargets,
    names: &LinkNames<'a>,
    index: &PieceIndex<'a>,
    modules: &[Module<'a>],
    piece: &Piece<'a>,
) -> Result<Vec<PackedFix>, Memory>
    requires same { names.now.modules ≡ modules.now }
    requires indexed { IsPieceIndex names.now index.now }
    requires held { HoldsTargets names.now last.old.position last.old.targets.items }
    requires whole { IsPieceOf names.now (bare piece.now) }
    ensures fixes { IfOk result (λ fixes. fixes.items ≡ fixes_in names.now piece.now) }
    ensures held { OnOk result (HoldsTargets names.now last.new.position last.new.targets.items) }
{
    if piece.module as usize == modules.len() {
        return linker_fixes(alloc, names, index, piece.number);
    }
    if piece.number >= FIRST_COMMON {
        return Ok(Vec::new(alloc));
    }
    let Some(object) = modules[piece.module as usize].object() else {
        return Ok(Vec::new(alloc));
    };
    section_fixes(
        alloc,
        last,
        names,
        index,
        object,
        piece.module,
        piece.number,
    )
}

/// Judges the relocations of a piece.
fn judge(
    alloc: Global,
    piece: &Piece<'_>,
    fixes: Vec<PackedFix>,
    large: bool,
) -> Result<Fixups, FieldError>
    ensures fields { IfOk result (λ fixups. AreTheFields fixes.items fixups) }
    ensures patchable { IfOk result (ArePatchable (length (piece_contents piece.now))) }
    ensures accepted { OnOk result (judged_fault piece.now (piece_contents piece.now) large fixes.items ≡ None) }
    ensures refused { IfErr result (RefusesField (field_fault (len_if piece.now.init (piece_contents piece.now)) large (is_pdata piece.now) fixes.items)) }
{
    if fixes.is_empty() {
        return Ok(Fixups::none(alloc));
    }
    check_list(
        alloc,
        initialised_bytes(piece),
        fixes,
        large,
        is_pdata(piece),
    )
}

/// The refusal for a relocation of a piece.
fn refusal<'a>(piece: &Piece<'a>, error: FieldError) -> Refusal<'a>
    ensures { (told : Option FieldError) → RefusesField told error → RefusesFor (option_and_then (refused_at piece.now) told) result }
{
    match error {
        FieldError::Reloc { index, kind } => Refusal::Fault(Fault::BadReloc {
            kind,
            module: Some(piece.module),
            section: piece.number,
            relocation: index,
        }),
        FieldError::Target { index, kind } => Refusal::Fault(Fault::BadTarget {
            kind,
            module: Some(piece.module),
            section: piece.number,
            relocation: index,
        }),
        FieldError::Memory => Refusal::Memory,
    }
}

/// The bytes of a piece that is initialised.
fn initialised_bytes<'b, 'a>(piece: &'b Piece<'a>) -> Option<&'b [u8]>
    ensures { len_of result ≡ len_if piece.now.init (piece_contents piece.now) }
{
    if !piece.init {
        return None;
    }
    match piece.body {
        Some(bytes) => Some(bytes),
        None => Some(&[]),
    }
}
