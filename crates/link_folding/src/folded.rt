//! Where pieces stand whose functions fold.

ghost use Rattle.std.specs.Prelude.{◌≡◌, ◌≤◌, ◌<◌, ◌^◌, ℕ, Some, length, map, slice_get, IfOk};
ghost use Rattle.std.specs.List.{All};
ghost use Rattle.link_base.specs.Limits.{MODULE_LIMIT};
ghost use Rattle.section_group.specs.BarePieces.{bare};
ghost use Rattle.section_group.specs.PieceContents.{piece_contents};
ghost use Rattle.module_view.specs.Opening.{IsOpened};
ghost use Rattle.link_pieces.specs.Pieces.{link_pieces, link_contents};
ghost use Rattle.link_pieces.specs.PieceIndex.{IsPieceIndex};
ghost use Rattle.link_fields.specs.Fixes.{HaveFields};
ghost use Rattle.icf.specs.Sections.{AreCandidates, sections_of};
ghost use Rattle.link_folding.specs.Places.{IsFolded, ArePlaces, body_in};
ghost use Rattle.link_folding.specs.Steps.{ArePut, HaveSections};

use crate::candidates::fold_candidates;
use icf::{FoldCandidate, fold};
use link_base::Memory;
use link_pieces::{LinkNames, PieceIndex};
use module_view::Module;
use relocate::Fixups;
use section_group::Piece;
use std::alloc::Global;

/// The piece at whose place each piece of a link stands, of which these are kept and have these fields: its own, unless a
/// function folds with one before it. Then its sections stand at the places of that one's, rank by rank.
pub fn folded_places<'a>(
    alloc: Global,
    names: &LinkNames<'a>,
    index: &PieceIndex<'a>,
    modules: &[Module<'a>],
    pieces: &[Piece<'a>],
    fixes: &[Fixups],
    kept: &[bool],
) -> Result<Vec<u32>, Memory>
    requires same { names.now.modules ≡ modules.now }
    requires indexed { IsPieceIndex names.now index.now }
    requires pieces { map bare pieces.now ≡ link_pieces names.now }
    requires contents { map piece_contents pieces.now ≡ link_contents names.now }
    requires few { length pieces.now < 2 ^ 31 }
    requires fields { HaveFields names.now (length pieces.now) fixes.now }
    requires opened { All IsOpened modules.now }
    requires few_modules { length modules.now ≤ MODULE_LIMIT }
    ensures { IfOk result (λ places. IsFolded names.now kept.now places.items) }
{
    let candidates = fold_candidates(alloc, names, index, modules, pieces, kept)?;
    let whole = with_bytes(alloc, pieces)?;
    let answers = fold(alloc, &whole, fixes, &candidates)?;
    places_by(alloc, pieces.len(), &candidates, &answers)
}

/// The pieces with their bytes, which are none where a piece has none in the file. So two sections without bytes are alike
/// whichever way a file says so.
fn with_bytes<'a>(alloc: Global, pieces: &[Piece<'a>]) -> Result<Vec<Piece<'a>>, Memory>
    ensures bare { IfOk result (λ whole. map bare whole.items ≡ map bare pieces.now) }
    ensures bodies { IfOk result (λ whole. map body_in whole.items ≡ map Some (map piece_contents pieces.now)) }
{
    let mut whole = Vec::with_capacity(alloc, pieces.len())?;
    for piece in pieces {
        whole.push(with_its_bytes(piece))?;
    }
    Ok(whole)
}

/// A piece with its bytes.
fn with_its_bytes<'a>(piece: &Piece<'a>) -> Piece<'a>
    ensures bare { bare result ≡ bare piece.now }
    ensures body { body_in result ≡ Some (piece_contents piece.now) }
{
    Piece {
        module: piece.module,
        number: piece.number,
        name: piece.name.again(),
        flags: piece.flags,
        size: piece.size,
        align: piece.align,
        body: Some(bytes_of(piece)),
        init: piece.init,
        named: piece.named,
    }
}

/// The bytes that a piece has in the file.
fn bytes_of<'a>(piece: &Piece<'a>) -> &'a [u8]
    ensures { result.now ≡ piece_contents piece.now }
{
    if piece.init {
        piece.body.unwrap_or(&[])
    } else {
        &[]
    }
}

/// Where so many pieces stand by the answers of a folding.
fn places_by(
    alloc: Global,
    count: usize,
    candidates: &[FoldCandidate],
    answers: &[u32],
) -> Result<Vec<u32>, Memory>
    requires few { count < 2 ^ 31 }
    requires candidates { AreCandidates count candidates.now }
    requires answers { HaveSections candidates.now answers.now }
    ensures for_each { IfOk result (λ places. length places.items ≡ count) }
    ensures places { IfOk result (λ places. ArePlaces candidates.now answers.now places.items) }
{
    let mut places = Vec::with_capacity(alloc, count)?;
    for k in 0..count {
        places.push(k as u32)?;
    }
    for number in 0..candidates.len() {
        let first = &candidates[answers[number] as usize];
        put_places(&mut places, &candidates[number], first);
    }
    Ok(places)
}

/// Puts the sections of a candidate at the places of those of another, rank by rank.
fn put_places(places: &mut Vec<u32>, candidate: &FoldCandidate, first: &FoldCandidate)
    requires as_many { length (sections_of candidate.now) ≡ length (sections_of first.now) }
    requires within { (rank piece : ℕ) → slice_get (sections_of candidate.now) rank ≡ Some piece → piece < length places.old.items }
    requires distinct { (rank other piece : ℕ) → slice_get (sections_of candidate.now) rank ≡ Some piece → slice_get (sections_of candidate.now) other ≡ Some piece → rank ≡ other }
    ensures { ArePut (sections_of candidate.now) (sections_of first.now) (length (sections_of candidate.now)) places.old.items places.new.items }
{
    places[candidate.piece as usize] = first.piece;
    for rank in 0..candidate.children.len() {
        places[candidate.children[rank] as usize] = first.children[rank];
    }
}
