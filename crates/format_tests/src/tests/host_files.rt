//! The objects in memory, planned failures, and the edge to the system.

ghost use Rattle.std.specs.Prelude.{◌<◌, ◌-◌, ◌^◌};

use link_files::{
    FileError, Files, HostFiles, HostSink, MemFiles, MemSink, NeverFails, PutError, Sink,
    WriteError,
};
use std::alloc::Global;
use std::io::{ErrorKind, Read, Write};
use std::test::Fail;
use std::{fs, io};

/// Is interrupted so many times, takes one byte a write while there is room for it, and then answers an error of this
/// kind, or nothing. A flush answers an error of its own kind, if there is one.
#[derive(Drop)]
struct Narrow {
    interrupts: usize,
    room: usize,
    error: Option<ErrorKind>,
    flush: Option<ErrorKind>,
}

impl Write for Narrow {
    fn write(&mut self, bytes: &[u8]) -> io::Result<usize> {
        if self.interrupts > 0 {
            self.interrupts -= 1;
            return Err(io::Error::from(ErrorKind::Interrupted));
        }
        if self.room > 0 && !bytes.is_empty() {
            self.room -= 1;
            return Ok(1);
        }
        match self.error {
            Some(kind) => Err(io::Error::from(kind)),
            None => Ok(0),
        }
    }

    fn flush(&mut self) -> io::Result<()> {
        match self.flush {
            Some(kind) => Err(io::Error::from(kind)),
            None => Ok(()),
        }
    }
}

/// Copies a file and puts its bytes, through the traits alone.
fn copy_and_put<F: Files, O: Sink>(files: &mut F, out: &mut O, alloc: Global) -> Result<(), Fail>
    requires reads_below { F.read_faults files.old < 2 ^ 64 - 1 }
    requires writes_below { F.write_faults files.old < 2 ^ 64 - 1 }
    requires puts_below { O.faults out.old < 2 ^ 64 - 1 }
{
    let bytes = files.read(alloc, "in.bin", 3)?;
    files.write("out.bin", bytes.as_slice())?;
    out.put(bytes.as_slice())?;
    Ok(())
}

fn length_of(answer: Result<Vec<u8>, FileError>) -> Result<usize, FileError> {
    match answer {
        Ok(bytes) => Ok(bytes.len()),
        Err(error) => Err(error),
    }
}

#[derive(Drop)]
struct Answers {
    first: Result<usize, FileError>,
    second: Result<usize, FileError>,
}

/// What two reads answer of files with `a.obj` of 85 bytes, of which this call fails.
fn two_reads(alloc: Global, fails: u64, name: &str, limit: u64) -> Result<Answers, Fail> {
    let mut files = MemFiles::new(alloc, vec![in alloc; fails]?);
    files.add("a.obj", &[0; 3])?;
    files.add("a.obj", &[7; 85])?;
    let first = length_of(files.read(alloc, name, limit));
    let second = length_of(files.read(alloc, name, limit));
    Ok(Answers { first, second })
}

/// What stands in a file, and in another, after a write of the first that was to fail.
fn torn_write(alloc: Global) -> Result<MemFiles, Fail> {
    let mut files = MemFiles::new(alloc, vec![in alloc; 2]?);
    files.add("a.obj", b"old")?;
    files.write("a.pdb", b"whole")?;
    if files.write("a.exe", b"12345") == Err(WriteError::Fault) {
        files.write("a.map", b"next")?;
    }
    Ok(files)
}

/// A sink whose second put was to fail.
fn torn_put(alloc: Global) -> Result<MemSink, Fail> {
    let mut out = MemSink::new(alloc, vec![in alloc; 2]?);
    out.put(b"ab")?;
    if out.put(b"cde") == Err(PutError::Fault) {
        out.put(b"f")?;
    }
    Ok(out)
}

#[test]
fn planned_reads_fail_and_others_answer(rt: HostRuntime) -> Result<(), Fail> {
    for (fails, name, limit, first, second) in [
        (0, "a.obj", 85, Ok(85), Ok(85)),
        (
            0,
            "a.obj",
            84,
            Err(FileError::TooLarge),
            Err(FileError::TooLarge),
        ),
        (
            0,
            "b.obj",
            85,
            Err(FileError::NotFound),
            Err(FileError::NotFound),
        ),
        (1, "a.obj", 85, Err(FileError::Fault), Ok(85)),
        (2, "a.obj", 85, Ok(85), Err(FileError::Fault)),
    ] {
        let answers = two_reads(rt.alloc(), fails, name, limit)?;
        assert_eq!(rt; answers.first, first, "{name} at {limit}, first");
        assert_eq!(rt; answers.second, second, "{name} at {limit}, second");
    }
    Ok(())
}

fn holds(files: &MemFiles, name: &str, want: &[u8]) -> bool {
    match files.held(name) {
        Some(bytes) => bytes == want,
        None => false,
    }
}

#[test]
fn planned_writes_and_puts_leave_a_prefix(rt: HostRuntime) -> Result<(), Fail> {
    let files = torn_write(rt.alloc())?;
    assert!(rt; holds(&files, "a.obj", b"old"));
    assert!(rt; holds(&files, "a.pdb", b"whole"));
    assert!(rt; holds(&files, "a.exe", b"12"));
    assert!(rt; holds(&files, "a.map", b"next"));
    let out = torn_put(rt.alloc())?;
    assert_eq!(rt; out.taken(), b"abcf".as_slice());
    Ok(())
}

#[test]
fn copies_in_memory(rt: HostRuntime) -> Result<(), Fail> {
    let (files, out) = in_memory(rt.alloc())?;
    assert_eq!(rt; files.held("out.bin"), Some(b"xyz".as_slice()));
    assert_eq!(rt; files.held("a.obj"), None);
    assert_eq!(rt; out.taken(), b"xyz".as_slice());
    Ok(())
}

/// What copying leaves in files and a sink of which nothing fails.
fn in_memory(alloc: Global) -> Result<(NeverFails, MemSink), Fail> {
    let mut files = NeverFails::new(alloc);
    let mut out = MemSink::new(alloc, Vec::new(alloc));
    files.add("in.bin", b"xyz")?;
    copy_and_put(&mut files, &mut out, alloc)?;
    Ok((files, out))
}

/// What a put of three bytes answers.
fn put_narrow(out: Narrow) -> Result<(), PutError> {
    let mut out = HostSink::new(out);
    out.put(b"xyz")
}

/// Writes the files that the test reads.
fn write_real<R: std::rt::Files>(rt: &R, alloc: Global) -> Result<(), Fail> {
    let mut files = HostFiles::new(rt);
    files.write("in.bin", b"more bytes, of which nothing is left")?;
    files.write("in.bin", b"xyz")?;
    let mut out = HostSink::new(fs::create(rt, "taken.bin")?);
    copy_and_put(&mut files, &mut out, alloc)
}

fn read_real<R: std::rt::Files>(
    rt: &R,
    alloc: Global,
    name: &str,
    limit: u64,
) -> Result<usize, FileError> {
    let mut files = HostFiles::new(rt);
    length_of(files.read(alloc, name, limit))
}

#[test]
fn real_files_are_written_and_read(rt: HostRuntime) -> Result<(), Fail> {
    write_real(&rt, rt.alloc())?;
    let too_long = "x".repeat(rt.alloc(), 256)?;
    for (name, limit, want) in [
        ("in.bin", 3, Ok(3)),
        ("in.bin", 2, Err(FileError::TooLarge)),
        ("out.bin", 4, Ok(3)),
        ("taken.bin", 3, Ok(3)),
        ("missing.bin", 3, Err(FileError::NotFound)),
        ("in.bin/missing.bin", 3, Err(FileError::NotFound)),
        (too_long.as_str(), 3, Err(FileError::NotFound)),
        (".", 1_000_000, Err(FileError::Fault)),
    ] {
        let answer = read_real(&rt, rt.alloc(), name, limit);
        assert_eq!(rt; answer, want, "{name} at {limit}");
    }
    assert_eq!(rt;
        HostFiles::new(&rt).write(".", b"xyz"),
        Err(WriteError::Fault)
    );
    Ok(())
}

/// Writes a file of so many bytes. Tells whether the kit and a read give them, and a limit of one less is refused.
fn comes_back<R: std::rt::Files>(rt: &R, alloc: Global, len: usize) -> Result<bool, Fail> {
    let mut bytes = Vec::with_capacity(alloc, len)?;
    for index in 0..len {
        bytes.push((index % 251) as u8)?;
    }
    let mut files = HostFiles::new(rt);
    files.write("long.bin", bytes.as_slice())?;
    let mut held = Vec::new(alloc);
    fs::open(rt, "long.bin")?.read_to_end(&mut held)?;
    let given = files.read(alloc, "long.bin", len as u64)?;
    let below = files.read(alloc, "long.bin", (len as u64).saturating_sub(1));
    Ok(held == bytes && given == bytes && length_of(below) == Err(FileError::TooLarge))
}

#[test]
fn long_files_come_back(rt: HostRuntime) -> Result<(), Fail> {
    for len in [
        1, 4_096, 4_097, 8_191, 8_192, 8_195, 131_072, 131_073, 400_000,
    ] {
        assert!(rt; comes_back(&rt, rt.alloc(), len)?, "{len} bytes");
    }
    Ok(())
}

#[test]
fn failing_writers_are_faults(rt: HostRuntime) {
    let memory = Some(ErrorKind::OutOfMemory);
    for (interrupts, room, error, flush, want) in [
        (0, 3, None, None, Ok(())),
        (2, 3, None, None, Ok(())),
        (0, 2, None, None, Err(PutError::Fault)),
        (0, 2, memory, None, Err(PutError::Fault)),
        (0, 0, memory, None, Err(PutError::Memory)),
        (0, 3, None, memory, Err(PutError::Fault)),
    ] {
        let out = Narrow {
            interrupts,
            room,
            error,
            flush,
        };
        assert_eq!(rt; put_narrow(out), want, "room for {room}");
    }
}
