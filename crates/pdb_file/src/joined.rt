//! Streams, one after the other.

ghost use Rattle.std.specs.Prelude.{◌≡◌, ◌∷◌, ◌++◌, [], OnOk};

use link_base::Memory;
use std::alloc::Global;
use std::marker::Model;

/// Streams that stand one after the other, and their lengths.
#[derive(Drop)]
pub(crate) struct JoinedStreams {
    pub(crate) bytes: Vec<u8>,
    pub(crate) lengths: Vec<u32>,
}

impl Model for JoinedStreams {
    ghost use Rattle.std.specs.Prelude.{◌≡◌, ℕ, List, length, sum};
    ghost use Rattle.pdb_msf.specs.WrittenFile.{parted};

    ghost Value = { List (List ℕ) };

    ghost view = { λ streams. parted streams.bytes.items streams.lengths.items };

    ghost invariant = { λ streams. sum streams.lengths.items ≡ length streams.bytes.items };
}

impl JoinedStreams {
    /// No streams.
    pub(crate) fn new(alloc: Global) -> JoinedStreams
        ensures { result ≡ [] }
    {
        JoinedStreams {
            bytes: Vec::new(alloc),
            lengths: Vec::new(alloc),
        }
    }

    /// Appends a stream.
    pub(crate) fn push(&mut self, stream: &[u8]) -> Result<(), Memory>
        ensures { OnOk result (self.new ≡ self.old ++ stream.now ∷ []) }
    {
        let Ok(len) = u32::try_from(stream.len()) else {
            return Err(Memory);
        };
        self.lengths.reserve(1)?;
        self.bytes.extend_from_slice(stream)?;
        self.lengths.push(len)?;
        Ok(())
    }
}
