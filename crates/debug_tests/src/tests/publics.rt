ghost use Rattle.std.specs.Prelude.{◌≡◌, ◌≤◌};

use link_base::{Memory, Name, PdbKind, field_u32};
use pdb_msf::{Msf, MsfError, write_msf};
use pdb_publics::{PublicRow, PublicStreams, bucket, find, write_publics};
use std::alloc::Global;
use std::test::Fail;

/// The hash of each name modulo 4,096, as LLVM's `hashStringV1` gives it.
#[test]
fn names_have_their_buckets(rt: HostRuntime) {
    let cases: [(&[u8], u32); 10] = [
        (b"", 1024),
        (b"Ab", 1609),
        (b"aB", 1609),
        (b"AB", 1609),
        (b"main", 549),
        (b"?f@@YAXXZ", 2055),
        (b"__imp_", 111),
        (b"__imp_x", 55),
        (b"__imp_xy", 572),
        (b"__imp_ExitProcess", 1123),
    ];
    for (name, number) in &cases {
        assert_eq!(rt; bucket(Name::of(*name)), *number, "{number}");
    }
}

fn row<'a>(name: &'a [u8], offset: u32, function: bool) -> PublicRow<'a>
    ensures { result.name ≡ name.now }
{
    PublicRow {
        name: Name::of(name),
        section: 1,
        offset,
        function,
    }
}

/// The streams of three rows, of which two differ in case alone, and two have one place.
fn three_rows(alloc: Global) -> Result<PublicStreams, Memory> {
    write_publics(
        alloc,
        &[
            row(b"main", 0, true),
            row(b"aB", 0, false),
            row(b"Ab", 8, false),
        ],
    )
}

#[test]
fn streams_of_three_rows(rt: HostRuntime) -> Result<(), Fail> {
    let streams = three_rows(rt.alloc())?;
    // Three records by the bytes of the names.
    let records: [u8; 60] = [
        0x12, 0, 0x0e, 0x11, 0, 0, 0, 0, 8, 0, 0, 0, 1, 0, b'A', b'b', 0, 0, 0, 0, //
        0x12, 0, 0x0e, 0x11, 0, 0, 0, 0, 0, 0, 0, 0, 1, 0, b'a', b'B', 0, 0, 0, 0, //
        0x12, 0, 0x0e, 0x11, 2, 0, 0, 0, 0, 0, 0, 0, 1, 0, b'm', b'a', b'i', b'n', 0, 0,
    ];
    assert_eq!(rt; streams.records.as_slice(), records.as_slice());

    assert_eq!(rt; streams.publics.len(), 28 + 16 + 24 + 516 + 8 + 12);
    for (at, number) in [
        // The sizes of the hash part and of the address map.
        (0usize, 564u32),
        (4, 12),
        (8, 0),
        (24, 0),
        // The head of the hash part: the size of its records, and of the bitmap and the words.
        (28, 0xffff_ffff),
        (32, 0xf12f_091a),
        (36, 24),
        (40, 524),
        // Its records: `main` in bucket 549, `Ab` and then `aB` in bucket 1,609.
        (44, 41),
        (48, 1),
        (52, 1),
        (56, 1),
        (60, 21),
        (64, 1),
        // Bits 549 and 1,609, and those beside them.
        (68, 0),
        (132, 0),
        (136, 0x20),
        (140, 0),
        (268, 0x200),
        (580, 0),
        // Two words: from record 0 on, and from record 1 on.
        (584, 0),
        (588, 12),
        // The address map: `aB` and `main` at 0, by their names, and `Ab` at 8.
        (592, 20),
        (596, 40),
        (600, 0),
    ] {
        assert_eq!(rt; field_u32(&streams.publics, at), Some(number), "at {at}");
    }

    assert_eq!(rt; streams.globals.len(), 16 + 516);
    for (at, number) in [
        (0usize, 0xffff_ffffu32),
        (4, 0xf12f_091a),
        (8, 0),
        (12, 516),
        (528, 0),
    ] {
        assert_eq!(rt; field_u32(&streams.globals, at), Some(number), "at {at}");
    }
    Ok(())
}

/// A multi-stream file of eight streams, of which the last two have bytes.
fn file_of(alloc: Global, publics: &[u8], records: &[u8]) -> Result<Vec<u8>, MsfError> {
    let mut joined = Vec::new(alloc);
    if publics.len() > 10_000 || records.len() > 10_000 {
        return Err(MsfError::Memory);
    }
    if joined.extend_from_slice(publics).is_err() || joined.extend_from_slice(records).is_err() {
        return Err(MsfError::Memory);
    }
    let lengths = [0, 0, 0, 0, 0, 0, publics.len() as u32, records.len() as u32];
    if joined.len() != publics.len() + records.len() {
        return Err(MsfError::Memory);
    }
    write_msf(alloc, &joined, &lengths)
}

/// The offset of the public of a name, in a file with such streams.
fn offset_of(
    alloc: Global,
    publics: &[u8],
    records: &[u8],
    name: &[u8],
) -> Result<Option<u32>, PdbKind> {
    let Ok(file) = file_of(alloc, publics, records) else {
        return Err(PdbKind::Superblock);
    };
    let msf = Msf::open(&file)?;
    match find(&msf, Name::of(name)) {
        Ok(Some(public)) => Ok(Some(public.offset)),
        Ok(None) => Ok(None),
        Err(kind) => Err(kind),
    }
}

#[test]
fn a_public_is_found_by_its_name(rt: HostRuntime) -> Result<(), Fail> {
    let streams = three_rows(rt.alloc())?;
    let cases: [(&[u8], Option<u32>); 6] = [
        (b"main", Some(0)),
        (b"Ab", Some(8)),
        (b"aB", Some(0)),
        (b"AB", None),
        (b"nix", None),
        (b"", None),
    ];
    for (name, offset) in &cases {
        let found = offset_of(rt.alloc(), &streams.publics, &streams.records, *name);
        assert_eq!(rt; found, Ok(*offset));
    }
    Ok(())
}

/// The bytes before a place, or all.
fn front(bytes: &[u8], len: usize) -> &[u8] {
    if len > bytes.len() {
        return bytes;
    }
    let (front, _) = bytes.split_at(len);
    front
}

/// Streams that are cut refuse what they do not hold.
#[test]
fn cut_streams_are_refused(rt: HostRuntime) -> Result<(), Fail> {
    let streams = three_rows(rt.alloc())?;
    let publics = streams.publics.as_slice();
    let records = streams.records.as_slice();
    let refused = Err(PdbKind::Hash);
    assert_eq!(rt; offset_of(rt.alloc(), b"\0", records, b"main"), refused);
    assert_eq!(rt;
        offset_of(rt.alloc(), front(publics, 603), records, b"main"),
        refused
    );
    assert_eq!(rt;
        offset_of(rt.alloc(), publics, front(records, 59), b"main"),
        refused
    );
    assert_eq!(rt;
        offset_of(rt.alloc(), publics, front(records, 59), b"aB"),
        Ok(Some(0))
    );
    Ok(())
}

/// Of a stream of publics with a number of four bytes changed: whether the table is refused for `main`, and for `aB`.
#[test]
fn a_malformed_table_is_refused(rt: HostRuntime) -> Result<(), Fail> {
    let streams = three_rows(rt.alloc())?;
    for (at, number, main, other) in [
        // A hash part, an address map, records, and tables that leave what holds them, and a bitmap that is cut.
        (0usize, 15u32, true, true),
        (4, 13, true, true),
        (36, 25, true, true),
        (40, 525, true, true),
        (40, 515, true, true),
        // No word is left, and one.
        (40, 519, true, true),
        (40, 523, true, true),
        // An offset of none, and one behind the records.
        (44, 0, true, false),
        (44, 60, true, false),
        (52, 0, false, true),
        // A bit that is not set, and one more behind the last, whose word is not there.
        (136, 0, false, false),
        (576, 1, false, true),
        // Words that descend, that count no whole records, and that leave the records.
        (584, 24, true, false),
        (588, 8, true, true),
        (588, 48, true, true),
        // Fields that nobody looks at.
        (28, 0, false, false),
        (600, 99, false, false),
    ] {
        let mut publics = streams.publics.clone()?;
        assert!(rt; at <= 600 && publics.len() == 604);
        publics[at..at + 4].copy_from_slice(&number.to_le_bytes());
        let answer = offset_of(rt.alloc(), &publics, &streams.records, b"main");
        assert_eq!(rt; answer.is_err(), main, "main at {at}");
        let answer = offset_of(rt.alloc(), &publics, &streams.records, b"aB");
        assert_eq!(rt; answer.is_err(), other, "aB at {at}");
    }
    Ok(())
}
