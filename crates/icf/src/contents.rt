//! What candidates are first told apart by: their sections without the fields.

ghost use Rattle.std.specs.Prelude.{◌≡◌, ◌<◌, ◌≤◌, ◌^◌, ℕ, length, slice_get, Some, IfOk};
ghost use Rattle.icf.specs.Sections.{sections_of, HasSection};
ghost use Rattle.icf.specs.Contents.{all_contents, AreContentLists, AreFirstClasses};

use crate::candidate::FoldCandidate;
use crate::first_equal::first_equal;
use link_base::{Memory, Name};
use section_group::Piece;
use std::alloc::Global;

/// A section without its fields.
#[derive(PartialEq, Eq, Hash, Drop)]
pub(crate) struct Contents<'a> {
    pub name: Name<'a>,
    pub flags: u32,
    pub size: u32,
    /// Its bytes, where it has any in the file.
    pub data: Option<&'a [u8]>,
}

/// The classes of candidates whose sections are equal but for their fields, each by the number of its first. The bytes of
/// a section are hashed once.
pub(crate) fn first_classes(
    alloc: Global,
    pieces: &[Piece<'_>],
    candidates: &[FoldCandidate],
) -> Result<Vec<u32>, Memory>
    requires few { length candidates.now ≤ 2 ^ 32 }
    requires within { (number rank piece : ℕ) → HasSection candidates.now number rank piece → piece < length pieces.now }
    ensures { IfOk result (λ classes. AreFirstClasses pieces.now candidates.now classes.items) }
{
    let keys = all_contents(alloc, pieces, candidates)?;
    first_equal(alloc, keys)
}

/// The sections of each candidate without their fields.
fn all_contents<'a>(
    alloc: Global,
    pieces: &[Piece<'a>],
    candidates: &[FoldCandidate],
) -> Result<Vec<Vec<Contents<'a>>>, Memory>
    requires { (number rank piece : ℕ) → HasSection candidates.now number rank piece → piece < length pieces.now }
    ensures { IfOk result (λ keys. AreContentLists pieces.now candidates.now (length candidates.now) keys.items) }
{
    let mut keys = Vec::with_capacity(alloc, candidates.len())?;
    for candidate in candidates {
        let contents = contents_of(alloc, pieces, candidate)?;
        keys.push(contents)?;
    }
    Ok(keys)
}

/// The sections of a candidate without their fields.
fn contents_of<'a>(
    alloc: Global,
    pieces: &[Piece<'a>],
    candidate: &FoldCandidate,
) -> Result<Vec<Contents<'a>>, Memory>
    requires { (rank piece : ℕ) → slice_get (sections_of candidate.now) rank ≡ Some piece → piece < length pieces.now }
    ensures { IfOk result (λ contents. contents.items ≡ all_contents pieces.now (sections_of candidate.now)) }
{
    let mut contents = Vec::new(alloc);
    for rank in 0..candidate.sections() {
        let piece = &pieces[candidate.section(rank) as usize];
        contents.push(Contents {
            name: piece.name.again(),
            flags: piece.flags,
            size: piece.size,
            data: piece.body,
        })?;
    }
    Ok(contents)
}
