//! Targets that are given other places.

ghost use Rattle.std.specs.Prelude.{◌≡◌, map, slice_index_or};
ghost use Rattle.relocate.specs.Redirected.{place_of, redirected, redirected_fix};

use crate::fix::Target;
use crate::fixups::Fixups;
use crate::packed::PackedFix;

impl Fixups {
    /// Gives other places to targets. One in a piece before `first` has the piece that `places` gives for its own, where that
    /// has one, and keeps its offset; one from `first` on stands for an offset in the one piece `home`, by its number among them.
    pub fn redirect(&mut self, places: &[u32], first: u32, home: u32, offsets: &[u32])
        ensures { self.new ≡ map (redirected_fix places.now first home offsets.now) self.old }
    {
        for fix in self.fixes.iter_mut() {
            redirect_fix(fix, places, first, home, offsets);
        }
    }
}

/// Gives another place to a relocation's target, where it has one; others are not written.
fn redirect_fix(fix: &mut PackedFix, places: &[u32], first: u32, home: u32, offsets: &[u32])
    ensures { fix.new ≡ redirected_fix places.now first home offsets.now fix.old }
{
    if let Some(Ok(Target::Piece { piece, value })) = fix.unpacked().target {
        if piece >= first {
            fix.set_target(Target::Piece {
                piece: home,
                value: offset_at(offsets, piece - first),
            });
        } else if let Some(place) = places.get(piece as usize) {
            fix.set_target(Target::Piece {
                piece: *place,
                value,
            });
        }
    }
}

/// A target with the place that it stands for, as `Fixups::redirect` says.
pub fn redirected(target: Target, places: &[u32], first: u32, home: u32, offsets: &[u32]) -> Target
    ensures { result ≡ redirected places.now first home offsets.now target }
{
    match target {
        Target::Piece { piece, value } => {
            if piece < first {
                return Target::Piece {
                    piece: place_of(places, piece),
                    value,
                };
            }
            Target::Piece {
                piece: home,
                value: offset_at(offsets, piece - first),
            }
        }
        other => other,
    }
}

/// The piece at whose place a piece stands: its own, where the list does not reach.
pub fn place_of(places: &[u32], piece: u32) -> u32
    ensures { result ≡ place_of places.now piece }
{
    places.get(piece as usize).copied().unwrap_or(piece)
}

/// The offset of a number; 0 where there is none.
fn offset_at(offsets: &[u32], number: u32) -> u32
    ensures { result ≡ slice_index_or offsets.now number 0 }
{
    offsets.get(number as usize).copied().unwrap_or(0)
}
