//! A multi-stream file, as a view of its bytes.

ghost use Rattle.std.specs.Prelude.{◌≡◌, IfOk, OnOk, IfErr, is_ok, is_none, None, Some};
ghost use Rattle.pdb_msf.specs.BlockFile.{msf_fault};
ghost use Rattle.pdb_msf.specs.Streams.{stream_of, stream_len, stream_byte, GivesStream};

use crate::judging::msf_fault;
use crate::streams::{stream_byte, stream_bytes, stream_len};
use link_base::{Memory, PdbKind};
use std::alloc::Global;
use std::marker::Model;

/// A file that was opened. Its streams are numbered from 0.
#[derive(Drop)]
pub struct Msf<'a> {
    bytes: &'a [u8],
}

impl<'a> Model for Msf<'a> {
    ghost use Rattle.std.specs.Prelude.{◌≡◌, List, ℕ, None};
    ghost use Rattle.pdb_msf.specs.BlockFile.{msf_fault};

    ghost Value = { List ℕ };

    ghost view = { λ msf. msf.bytes.now };

    ghost invariant = { λ msf. msf_fault msf.bytes.now ≡ None };
}

/// Why a stream is not given.
#[derive(Clone, Copy, Debug, PartialEq, Eq)]
pub enum StreamError {
    /// There is no stream of that number.
    Missing,
    /// Want of memory.
    Memory,
}

impl<'a> Msf<'a> {
    /// The file with these bytes. It is refused for the first that stands of the first three kinds of `PdbKind`. What its
    /// streams hold is not looked at.
    pub fn open(bytes: &'a [u8]) -> Result<Msf<'a>, PdbKind>
        ensures same_bytes { IfOk result (λ msf. msf ≡ bytes.now) }
        ensures well_formed { OnOk result (msf_fault bytes.now ≡ None) }
        ensures refused { IfErr result (λ kind. msf_fault bytes.now ≡ Some kind) }
        ensures opens { is_ok result ≡ is_none (msf_fault bytes.now) }
    {
        match msf_fault(bytes) {
            Some(kind) => Err(kind),
            None => Ok(Msf { bytes }),
        }
    }

    /// The size of a stream.
    pub fn stream_len(&self, i: u32) -> Option<u32>
        ensures { result ≡ stream_len self.now i }
    {
        stream_len(self.bytes, i)
    }

    /// A byte of a stream. Each call walks along the sizes of the streams before it.
    pub fn stream_byte(&self, i: u32, k: u32) -> Option<u8>
        ensures { result ≡ stream_byte self.now i k }
    {
        stream_byte(self.bytes, i, k)
    }

    /// The bytes of a stream.
    pub fn stream(&self, alloc: Global, i: u32) -> Result<Vec<u8>, StreamError>
        ensures { GivesStream (stream_of self.now i) result }
    {
        let Some(len) = stream_len(self.bytes, i) else {
            return Err(StreamError::Missing);
        };
        match stream_bytes(alloc, self.bytes, i as usize, len) {
            Ok(bytes) => Ok(bytes),
            Err(Memory) => Err(StreamError::Memory),
        }
    }
}
