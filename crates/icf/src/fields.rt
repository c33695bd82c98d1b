//! The fields of the sections of candidates.

ghost use Rattle.std.specs.Prelude.{◌≡◌, ◌++◌, ◌<◌, ℕ, length, map, slice_get, Some, IfOk, OnOk};
ghost use Rattle.std.specs.List.{AllPairs};
ghost use Rattle.icf.specs.Sections.{sections_of, fields_at, HasSection};
ghost use Rattle.icf.specs.Fields.{place_in, place_by, field_in, AreFields, AreFieldLists};
ghost use Rattle.icf.specs.Owners.{owner_at};

use crate::candidate::FoldCandidate;
use crate::field::{Field, Owner, Place};
use link_base::Memory;
use relocate::{Fix, Fixups, PackedFix, Target};
use std::alloc::Global;

/// The fields of each candidate.
pub(crate) fn all_fields(
    alloc: Global,
    fixes: &[Fixups],
    owners: &[Option<Owner>],
    candidates: &[FoldCandidate],
) -> Result<Vec<Vec<Field>>, Memory>
    requires within { (number rank piece : ℕ) → HasSection candidates.now number rank piece → piece < length fixes.now }
    requires ascending { (piece : ℕ) → AllPairs (λ left right. left.at < right.at) (fields_at fixes.now piece) }
    ensures { IfOk result (λ lists. AreFieldLists owners.now fixes.now candidates.now (length candidates.now) lists.items) }
{
    let mut lists = Vec::with_capacity(alloc, candidates.len())?;
    for candidate in candidates {
        let fields = fields_of(alloc, fixes, owners, candidate)?;
        lists.push(fields)?;
    }
    Ok(lists)
}

/// The fields of the sections of a candidate, section by section, and by their places in each.
fn fields_of(
    alloc: Global,
    fixes: &[Fixups],
    owners: &[Option<Owner>],
    candidate: &FoldCandidate,
) -> Result<Vec<Field>, Memory>
    requires within { (rank piece : ℕ) → slice_get (sections_of candidate.now) rank ≡ Some piece → piece < length fixes.now }
    requires ascending { (piece : ℕ) → AllPairs (λ left right. left.at < right.at) (fields_at fixes.now piece) }
    ensures { IfOk result (λ fields. AreFields owners.now fixes.now (sections_of candidate.now) fields.items) }
{
    let mut fields = Vec::new(alloc);
    for rank in 0..candidate.sections() {
        let piece = candidate.section(rank) as usize;
        add_fields(&mut fields, owners, rank, fixes[piece].fixes())?;
    }
    Ok(fields)
}

/// Adds the fields of a section.
fn add_fields(
    fields: &mut Vec<Field>,
    owners: &[Option<Owner>],
    rank: usize,
    fixes: &[PackedFix],
) -> Result<(), Memory>
    ensures { OnOk result (fields.new.items ≡ fields.old.items ++ map (field_in owners.now rank) fixes.now) }
{
    for fix in fixes {
        fields.push(field_in(owners, rank, &fix.unpacked()))?;
    }
    Ok(())
}

/// The field of a relocation of a section.
fn field_in(owners: &[Option<Owner>], rank: usize, fix: &Fix) -> Field
    ensures { result ≡ field_in owners.now rank fix.now }
{
    Field {
        rank,
        at: fix.at,
        kind: fix.kind,
        place: place_in(owners, fix),
    }
}

/// What a field's symbol means, which is known.
fn place_in(owners: &[Option<Owner>], fix: &Fix) -> Place
    ensures { result ≡ place_in owners.now fix.now.target }
{
    match fix.target {
        Some(Ok(Target::Piece { piece, value })) => place_by(owners, piece, value),
        Some(Ok(Target::Absolute(number))) => Place::Absolute(number),
        _ => Place::ImageBase,
    }
}

/// A place in a piece, or in the section of its owner.
fn place_by(owners: &[Option<Owner>], piece: u32, value: u32) -> Place
    ensures { result ≡ place_by (owner_at owners.now piece) piece value }
{
    match owners.get(piece as usize) {
        Some(Some(owner)) => Place::Section {
            candidate: owner.candidate,
            rank: owner.rank,
            value,
        },
        _ => Place::Piece { piece, value },
    }
}
