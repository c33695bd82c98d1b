//! Where the entry of an image stands.

ghost use Rattle.std.specs.Prelude.{◌≡◌, None, IfOk, OnOk, IfErr};
ghost use Rattle.link_pieces.specs.LinkParts.{LinkParts};
ghost use Rattle.link_pieces.specs.PieceIndex.{IsPieceIndex};
ghost use Rattle.link_fields.specs.Entry.{meant_place, meant_fault};

use link_base::{Fault, TargetFault};
use link_pieces::PieceIndex;
use symbol_table::Meaning;

/// Where an entry stands: its piece, and the offset in it.
#[derive(Clone, Copy, Debug, PartialEq, Eq)]
pub struct EntryPlace {
    pub piece: u32,
    pub value: u32,
}

/// Where the entry stands, by what it means. The start of the image is as no entry: the RVA 0.
pub(crate) fn entry_place<'a>(
    index: &PieceIndex<'_>,
    meaning: &Option<Meaning<'a>>,
) -> Result<Option<EntryPlace>, Fault<'a>>
    ensures placed { IfOk result (λ place. (link : LinkParts) → IsPieceIndex link index.now
        → place ≡ meant_place link meaning.now) }
    ensures accepted { OnOk result ((link : LinkParts) → IsPieceIndex link index.now
        → meant_fault link meaning.now ≡ None) }
    ensures refused { IfErr result (λ fault. (link : LinkParts) → IsPieceIndex link index.now
        → meant_fault link meaning.now ≡ Some fault) }
{
    match meaning {
        None => Ok(None),
        Some(
            Meaning::Section {
                module,
                section,
                value,
            },
        ) => match index.of(*module, *section) {
            Some(piece) => Ok(Some(EntryPlace {
                piece,
                value: *value,
            })),
            None => Err(bad_entry(TargetFault::Unplaced)),
        },
        Some(Meaning::Common { module, symbol }) => match index.of_common(*module, *symbol) {
            Some(piece) => Ok(Some(EntryPlace { piece, value: 0 })),
            None => Err(bad_entry(TargetFault::Unplaced)),
        },
        Some(Meaning::Thunk { module }) => match index.of_thunk(*module) {
            Some(piece) => Ok(Some(EntryPlace { piece, value: 0 })),
            None => Err(bad_entry(TargetFault::Unplaced)),
        },
        Some(Meaning::ImageBase) => Ok(None),
        Some(_) => Err(bad_entry(TargetFault::NoSection)),
    }
}

/// The fault of an entry or a local slot whose target has no address that it can use.
pub(crate) fn bad_entry<'a>(kind: TargetFault) -> Fault<'a>
    ensures { result ≡ Fault.BadTarget kind None 0 0 }
{
    Fault::BadTarget {
        kind,
        module: None,
        section: 0,
        relocation: 0,
    }
}
