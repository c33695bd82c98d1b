//! The trusted edge of the output: a writer of the system.

ghost use Rattle.std.specs.Prelude.{◌≡◌, ◌≢◌, ◌↔◌, IsOk, IfErr};
ghost use Rattle.std.specs.Io.{WritesAtMost};
ghost use Rattle.std.specs.Io.KnownBytes.{WriteAppends};
ghost use Rattle.std.specs.IoError.{error_kind};
ghost use Rattle.std.specs.declared.io.ErrorKind.TheVariants as kind;
ghost use Rattle.link_files.specs.HostWrites.{WritesWhole};
ghost use Rattle.link_files.specs.declared.sink.PutError.TheVariants as put;

use crate::sink::{PutError, Sink};
use std::io;
use std::io::{ErrorKind, Write};
use std::marker::Model;

/// A real writer, of which nothing is told.
#[derive(Drop)]
pub struct HostSink<W: Write> {
    out: W,
    faults: u64,
}

impl<W: Write> Model for HostSink<W> {
    ghost use Rattle.std.specs.Prelude.{ℕ};

    ghost Value = { ℕ };

    ghost view = { λ it. it.faults };
}

impl<W: Write> HostSink<W> {
    /// A sink over this writer, of which no put has failed.
    pub fn new(out: W) -> HostSink<W>
        ensures { result ≡ 0 }
    {
        HostSink { out, faults: 0 }
    }
}

impl<W: Write> Sink for HostSink<W> {
    ghost use Rattle.std.specs.Prelude.{None};

    ghost taken = { λ _. None };

    ghost faults = { λ count. count };

    fn put(&mut self, bytes: &[u8]) -> Result<(), PutError> {
        match write_whole(&mut self.out, bytes) {
            Err(PutError::Fault) => {
                self.faults += 1;
                Err(PutError::Fault)
            }
            answer => answer,
        }
    }
}

/// Writes all of the bytes and flushes. Want of memory is answered where nothing was written yet; every other
/// error, and a write that takes nothing, is a fault.
pub(crate) fn write_whole<W: Write>(out: &mut W, bytes: &[u8]) -> Result<(), PutError>
    ensures { WritesWhole (W.contents out.old) (W.contents out.new) bytes.now result }
{
    let mut rest = bytes;
    while !rest.is_empty() {
        match write_some(out, rest) {
            Ok(0) => return Err(PutError::Fault),
            Ok(count) => (_, rest) = rest.split_at(count),
            Err(error) => {
                let is_first = rest.len() == bytes.len();
                if is_first && error.kind() == ErrorKind::OutOfMemory {
                    return Err(PutError::Memory);
                }
                return Err(PutError::Fault);
            }
        }
    }
    flush_answer(out.flush())
}

/// One write, tried again where it was interrupted. It timed out where each of 2^64 - 1 tries was.
fn write_some<W: Write>(out: &mut W, bytes: &[u8]) -> io::Result<usize>
    ensures bound { WritesAtMost result bytes.now }
    ensures bytes { WriteAppends (W.contents out.old) (W.contents out.new) result bytes.now }
    ensures retried { IfErr result (λ error. error_kind error ≢ kind.Interrupted) }
{
    for _ in 0..u64::MAX {
        match out.write(bytes) {
            Ok(count) => return Ok(count),
            Err(error) => {
                if error.kind() != ErrorKind::Interrupted {
                    return Err(error);
                }
            }
        }
    }
    Err(io::Error::from(ErrorKind::TimedOut))
}

/// A flush that failed is a fault.
fn flush_answer(flushed: io::Result<()>) -> Result<(), PutError>
    ensures ok { IsOk result ↔ IsOk flushed }
    ensures fault { IfErr result (λ error. error ≡ put.Fault) }
{
    match flushed {
        Ok(()) => Ok(()),
        Err(_) => Err(PutError::Fault),
    }
}
