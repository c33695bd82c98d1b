//! The candidates for folding among the pieces of a link.

ghost use Rattle.std.specs.Prelude.{◌≡◌, ◌≤◌, ◌<◌, ◌-◌, ◌^◌, ◌&&◌, false, not, All, length, map, slice_index_or, IfOk, OnOk};
ghost use Rattle.link_base.specs.Bytes.{has_flag};
ghost use Rattle.link_base.specs.Limits.{MODULE_LIMIT};
ghost use Rattle.link_base.specs.PeFormat as flag;
ghost use Rattle.coff_records.specs.ObjectFile.{section_total};
ghost use Rattle.coff_aux.specs.Comdats.{comdat_of, parents_of};
ghost use Rattle.module_view.specs.Module.{module_at};
ghost use Rattle.module_view.specs.Opening.{IsOpened};
ghost use Rattle.section_group.specs.BarePieces.{bare};
ghost use Rattle.comdat.specs.Chains.{chain_end};
ghost use Rattle.link_pieces.specs.Pieces.{link_pieces};
ghost use Rattle.link_pieces.specs.PieceIndex.{IsPieceIndex, is_section};
ghost use Rattle.link_folding.specs.Candidates.{AreCandidatesOf, is_own, may_fold};
ghost use Rattle.link_folding.specs.Steps.{NotesPiece, AreGathered, kept_child, candidate_at};

use comdat::section_ends;
use icf::FoldCandidate;
use link_base::Memory;
use link_base::pe_format::{SCN_LNK_COMDAT, SCN_MEM_EXECUTE, SCN_MEM_WRITE};
use link_pieces::{FIRST_COMMON, LinkNames, PieceIndex};
use module_view::Module;
use section_group::Piece;
use std::alloc::Global;

/// The candidates of a link, and which of them each piece is.
#[derive(Drop)]
pub(crate) struct Candidates {
    /// The candidates in the order of their pieces.
    pub(crate) list: Vec<FoldCandidate>,
    /// For each piece the number of the candidate that it is.
    pub(crate) numbers: Vec<Option<u32>>,
}

impl Candidates {
    /// Notes the next piece, which is a candidate or is none.
    fn note(&mut self, alloc: Global, piece: u32, is_candidate: bool) -> Result<(), Memory>
        requires { length self.old.list.items ≤ piece }
        ensures { OnOk result (NotesPiece piece is_candidate self.old self.new) }
    {
        if !is_candidate {
            self.numbers.push(None)?;
            return Ok(());
        }
        self.numbers.push(Some(self.list.len() as u32))?;
        self.list.push(FoldCandidate {
            piece,
            children: Vec::new(alloc),
        })?;
        Ok(())
    }
}

/// The candidates of a link in the order of their pieces, each with the sections that go with it.
pub(crate) fn fold_candidates<'a>(
    alloc: Global,
    names: &LinkNames<'a>,
    index: &PieceIndex<'a>,
    modules: &[Module<'a>],
    pieces: &[Piece<'a>],
    kept: &[bool],
) -> Result<Vec<FoldCandidate>, Memory>
    requires same { names.now.modules ≡ modules.now }
    requires indexed { IsPieceIndex names.now index.now }
    requires pieces { map bare pieces.now ≡ link_pieces names.now }
    requires few { length pieces.now < 2 ^ 31 }
    requires opened { All IsOpened modules.now }
    requires few_modules { length modules.now ≤ MODULE_LIMIT }
    ensures { IfOk result (λ candidates. AreCandidatesOf names.now kept.now candidates.items) }
{
    let mut found = own_candidates(alloc, names, modules, pieces, kept)?;
    for position in 0..modules.len() {
        let module = &modules[position];
        add_children(
            alloc,
            names,
            &mut found,
            index,
            module,
            position as u32,
            kept,
        )?;
    }
    Ok(found.list)
}

/// The candidates without the sections that go with them.
fn own_candidates<'a>(
    alloc: Global,
    names: &LinkNames<'a>,
    modules: &[Module<'a>],
    pieces: &[Piece<'a>],
    kept: &[bool],
) -> Result<Candidates, Memory>
    requires same { names.now.modules ≡ modules.now }
    requires pieces { map bare pieces.now ≡ link_pieces names.now }
    requires few { length pieces.now < 2 ^ 31 }
    ensures { IfOk result (λ found. AreGathered names.now kept.now 0 0 found) }
{
    let mut found = Candidates {
        list: Vec::new(alloc),
        numbers: Vec::with_capacity(alloc, pieces.len())?,
    };
    for k in 0..pieces.len() {
        let is_candidate = is_candidate(names, modules, &pieces[k], k as u32, kept);
        found.note(alloc, k as u32, is_candidate)?;
    }
    Ok(found)
}

/// Whether a piece is one that is kept and may fold.
fn is_candidate<'a>(
    names: &LinkNames<'a>,
    modules: &[Module<'a>],
    piece: &Piece<'a>,
    number: u32,
    kept: &[bool],
) -> bool
    requires { names.now.modules ≡ modules.now }
    ensures { result ≡ (slice_index_or kept.now number false && may_fold names.now piece.now) }
{
    is_kept(kept, number) && may_fold(names, modules, piece)
}

/// Whether a piece is kept.
fn is_kept(kept: &[bool], piece: u32) -> bool
    ensures { result ≡ slice_index_or kept.now piece false }
{
    match kept.get(piece as usize) {
        Some(kept) => *kept,
        None => false,
    }
}

/// Whether a piece is a COMDAT section of code that is initialised, cannot be written and has no parent.
fn may_fold<'a>(names: &LinkNames<'a>, modules: &[Module<'a>], piece: &Piece<'a>) -> bool
    requires { names.now.modules ≡ modules.now }
    ensures { result ≡ may_fold names.now piece.now }
{
    if !is_section(modules.len(), piece) || !is_code(piece) {
        return false;
    }
    is_own(&modules[piece.module as usize], piece.number)
}

/// Whether a piece is a section of one of so many modules.
fn is_section(modules: usize, piece: &Piece<'_>) -> bool
    ensures { result ≡ is_section modules piece.now }
{
    (piece.module as usize) < modules && piece.number < FIRST_COMMON
}

/// Whether a piece is a COMDAT section of code that is initialised and cannot be written.
fn is_code(piece: &Piece<'_>) -> bool
    ensures { result ≡ (has_flag piece.now.flags flag.SCN_LNK_COMDAT
        && (has_flag piece.now.flags flag.SCN_MEM_EXECUTE && (not (has_flag piece.now.flags flag.SCN_MEM_WRITE) && piece.now.init))) }
{
    piece.flags & SCN_LNK_COMDAT != 0
        && piece.flags & SCN_MEM_EXECUTE != 0
        && piece.flags & SCN_MEM_WRITE == 0
        && piece.init
}

/// Whether a section has no parent.
fn is_own(module: &Module<'_>, section: u32) -> bool
    ensures { result ≡ is_own (comdat_of «module».now.bytes section) }
{
    match module.comdat(section) {
        Some(comdat) => comdat.parent.is_none(),
        None => true,
    }
}

/// Adds the sections of a module to the candidates that they go with, by section number.
fn add_children<'a>(
    alloc: Global,
    names: &LinkNames<'a>,
    found: &mut Candidates,
    index: &PieceIndex<'a>,
    module: &Module<'a>,
    position: u32,
    kept: &[bool],
) -> Result<(), Memory>
    requires indexed { IsPieceIndex names.now index.now }
    requires here { «module».now ≡ module_at names.now.modules position }
    requires opened { IsOpened «module».now }
    requires gathered { AreGathered names.now kept.now position 0 found.old }
    ensures { OnOk result (AreGathered names.now kept.now position (section_total (module_at names.now.modules position).bytes) found.new) }
{
    let ends = section_ends(alloc, module)?;
    for section in 1..ends.len() {
        add_child(
            names,
            found,
            index,
            position,
            section as u32,
            ends[section],
            kept,
        )?;
    }
    Ok(())
}

/// Adds a section to the candidate at the end of its chain of parents, where it is kept and there is one.
fn add_child<'a>(
    names: &LinkNames<'a>,
    found: &mut Candidates,
    index: &PieceIndex<'a>,
    position: u32,
    section: u32,
    end: u32,
    kept: &[bool],
) -> Result<(), Memory>
    requires indexed { IsPieceIndex names.now index.now }
    requires first { 0 < section }
    requires end { end ≡ chain_end (parents_of (module_at names.now.modules position).bytes) section }
    requires gathered { AreGathered names.now kept.now position (section - 1) found.old }
    ensures { OnOk result (AreGathered names.now kept.now position section found.new) }
{
    let Some(child) = kept_child(index, position, section, end, kept) else {
        return Ok(());
    };
    let Some(number) = candidate_at(index, &found.numbers, position, end) else {
        return Ok(());
    };
    found.list[number as usize].children.push(child)?;
    Ok(())
}

/// The piece of a section that is not the end of its chain, where it is kept.
fn kept_child(
    index: &PieceIndex<'_>,
    position: u32,
    section: u32,
    end: u32,
    kept: &[bool],
) -> Option<u32>
    ensures { result ≡ kept_child index.now.sections kept.now position section end }
{
    if end == section {
        return None;
    }
    let child = index.of(position, section)?;
    if is_kept(kept, child) {
        Some(child)
    } else {
        None
    }
}

/// The number of the candidate that a section is, where it is one.
fn candidate_at(
    index: &PieceIndex<'_>,
    numbers: &[Option<u32>],
    position: u32,
    section: u32,
) -> Option<u32>
    ensures { result ≡ candidate_at index.now.sections numbers.now position section }
{
    let piece = index.of(position, section)?;
    match numbers.get(piece as usize) {
        Some(number) => *number,
        None => None,
    }
}
