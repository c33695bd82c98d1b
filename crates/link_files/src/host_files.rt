//! The trusted edge of the files: those of the system.

ghost use Rattle.std.specs.Prelude.{◌≡◌, ◌≤◌, ◌++◌, length, IfOk, OnOk, IfSome, Some};
ghost use Rattle.std.specs.Io.{ReadsAtMost};
ghost use Rattle.std.specs.Io.KnownBytes.{ReadConsumes};
ghost use Rattle.std.specs.IoError.{error_kind};
ghost use Rattle.link_files.specs.HostCounts.{no_faults};
ghost use Rattle.link_files.specs.HostErrors.{read_error_of, create_error_of};
ghost use Rattle.link_files.specs.HostReads.{ReadsRest};

use crate::files::{FileError, Files, WriteError};
use crate::host_sink::write_whole;
use std::alloc::Allocator;
use std::fs::OpenFile;
use std::io::{ErrorKind, Read, Seek, SeekFrom};
use std::marker::Model;
use std::{fs, io, rt};

/// The length from which a file is read by pieces, and that of a piece.
const PIECE: usize = 8 * 1024;

/// The files of the system, of which nothing is told.
#[derive(Drop)]
pub struct HostFiles<'a, R: rt::Files> {
    system: &'a R,
    read_faults: u64,
    write_faults: u64,
    /// Takes what is read of a long file, before it is appended.
    piece: [u8; PIECE],
}

impl<'a, R: rt::Files> Model for HostFiles<'a, R> {
    ghost use Rattle.link_files.specs.HostCounts.{HostCounts};

    ghost Value = { HostCounts };

    ghost view = { λ it. record { read_faults = it.read_faults; write_faults = it.write_faults } };
}

impl<'a, R: rt::Files> HostFiles<'a, R> {
    /// The files of this system, of which no read and no write has failed.
    pub fn new(system: &'a R) -> HostFiles<'a, R>
        ensures { result ≡ no_faults }
    {
        HostFiles {
            system,
            read_faults: 0,
            write_faults: 0,
            piece: [0; PIECE],
        }
    }
}

impl<'a, R: rt::Files> Files for HostFiles<'a, R> {
    ghost use Rattle.std.specs.Prelude.{None};

    ghost store = { λ _. None };

    ghost read_faults = { λ counts. counts.read_faults };

    ghost write_faults = { λ counts. counts.write_faults };

    fn read<A: Allocator>(
        &mut self,
        alloc: A,
        name: &str,
        limit: u64,
    ) -> Result<Vec<u8, A>, FileError> {
        match read_file(self.system, &mut self.piece, alloc, name, limit) {
            Err(FileError::Fault) => {
                self.read_faults += 1;
                Err(FileError::Fault)
            }
            answer => answer,
        }
    }

    fn write(&mut self, name: &str, bytes: &[u8]) -> Result<(), WriteError> {
        match write_file(self.system, name, bytes) {
            Err(WriteError::Fault) => {
                self.write_faults += 1;
                Err(WriteError::Fault)
            }
            answer => answer,
        }
    }
}

/// Reads the file, unless its length is above the limit: then, and where more bytes come than the limit, it is too
/// large.
fn read_file<R: rt::Files, A: Allocator>(
    system: &R,
    piece: &mut [u8; PIECE],
    alloc: A,
    name: &str,
    limit: u64,
) -> Result<Vec<u8, A>, FileError>
    ensures { IfOk result (λ bytes. length bytes.items ≤ limit) }
{
    let mut file = match fs::open(system, name) {
        Ok(file) => file,
        Err(error) => return Err(read_error(&error)),
    };
    let len = match len_of(&mut file, limit) {
        Ok(len) => len,
        Err(error) => return Err(read_error(&error)),
    };
    if len > limit {
        return Err(FileError::TooLarge);
    }
    read_rest(alloc, piece, file, len, limit)
}

/// The length of a file that stands at its start, and stands there again afterwards. Seeking its end costs less than its
/// metadata, which tell the length where it cannot seek, and where its end is above the limit: a folder's may be anything.
fn len_of<F: Seek + OpenFile>(file: &mut F, limit: u64) -> io::Result<u64>
    ensures { OnOk result (F.stream_position file.old ≡ Some 0 → F.stream_position file.new ≡ Some 0) }
{
    if let Ok(len) = file.seek(SeekFrom::End(0)) {
        file.rewind()?;
        if len <= limit {
            return Ok(len);
        }
    }
    Ok(file.metadata()?.len())
}

/// All that the reader has left. It is too large where more than `limit` bytes come, and nothing is read behind the
/// first of those. Room for `len` bytes, and one to see the end, is taken at once.
fn read_rest<F: Read, A: Allocator>(
    alloc: A,
    piece: &mut [u8; PIECE],
    file: F,
    len: u64,
    limit: u64,
) -> Result<Vec<u8, A>, FileError>
where
    F: Drop,
    ensures { ReadsRest (F.remaining file) limit result }
{
    let mut bytes = Vec::with_capacity(alloc, len.saturating_add(1) as usize)?;
    let mut file = file.take(limit.saturating_add(1));
    match append_rest(&mut bytes, &mut file, piece, len) {
        Ok(()) => {}
        Err(error) => return Err(read_error(&error)),
    }
    if bytes.len() as u64 > limit {
        return Err(FileError::TooLarge);
    }
    Ok(bytes)
}

/// Appends all that the reader has left. Reading in place clears the room first, so a long file is read by pieces.
fn append_rest<F: Read, A: Allocator>(
    bytes: &mut Vec<u8, A>,
    file: &mut F,
    piece: &mut [u8; PIECE],
    len: u64,
) -> io::Result<()>
    ensures { OnOk result (IfSome (F.remaining file.old) (λ rest. bytes.new.items ≡ bytes.old.items ++ rest)) }
{
    if len >= PIECE as u64 {
        return append_pieces(bytes, file, piece);
    }
    file.read_to_end(bytes)?;
    Ok(())
}

/// Appends all that the reader has left, piece by piece, through the room for one, which is not cleared.
fn append_pieces<F: Read, A: Allocator>(
    bytes: &mut Vec<u8, A>,
    file: &mut F,
    piece: &mut [u8; PIECE],
) -> io::Result<()>
    ensures { OnOk result (IfSome (F.remaining file.old) (λ rest. bytes.new.items ≡ bytes.old.items ++ rest)) }
{
    for _ in 0..u64::MAX {
        let count = read_some(file, piece)?;
        if count == 0 {
            return Ok(());
        }
        bytes.extend_from_slice(&piece[..count])?;
    }
    Err(io::Error::from(ErrorKind::TimedOut))
}

/// One read, tried again where it was interrupted. It timed out where each of 2^64 - 1 tries was.
fn read_some<F: Read>(file: &mut F, piece: &mut [u8]) -> io::Result<usize>
    ensures bound { ReadsAtMost result piece.new }
    ensures bytes { ReadConsumes (F.remaining file.old) (F.remaining file.new) result piece.new }
{
    for _ in 0..u64::MAX {
        match file.read(piece) {
            Ok(count) => return Ok(count),
            Err(error) => {
                if error.kind() != ErrorKind::Interrupted {
                    return Err(error);
                }
            }
        }
    }
    Err(io::Error::from(ErrorKind::TimedOut))
}

/// Makes the file, or empties it, and writes the bytes. Once that is done every error is a fault.
fn write_file<R: rt::Files>(system: &R, name: &str, bytes: &[u8]) -> Result<(), WriteError> {
    let mut file = match fs::create(system, name) {
        Ok(file) => file,
        Err(error) => return Err(create_error(&error)),
    };
    match write_whole(&mut file, bytes) {
        Ok(()) => Ok(()),
        Err(_) => Err(WriteError::Fault),
    }
}

/// No file has the name where it is not there, where its path goes through a file, and where it is longer than the
/// system's names are. Want of memory has a kind of its own; every other error is a fault.
fn read_error(error: &io::Error) -> FileError
    ensures { result ≡ read_error_of (error_kind error.now) }
{
    match error.kind() {
        ErrorKind::NotFound => FileError::NotFound,
        ErrorKind::NotADirectory => FileError::NotFound,
        ErrorKind::InvalidFilename => FileError::NotFound,
        ErrorKind::OutOfMemory => FileError::Memory,
        _ => FileError::Fault,
    }
}

/// Want of memory has a kind of its own; every other error is a fault.
fn create_error(error: &io::Error) -> WriteError
    ensures { result ≡ create_error_of (error_kind error.now) }
{
    match error.kind() {
        ErrorKind::OutOfMemory => WriteError::Memory,
        _ => WriteError::Fault,
    }
}
