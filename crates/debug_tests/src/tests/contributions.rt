//! The contributions of streams that others wrote, and of malformed ones.

use link_base::{LeNumber, Memory, PdbKind, push_fields};
use pdb_dbi::{Contribution, DbiError, contributions};
use pdb_msf::{Msf, write_msf};
use std::alloc::Global;

/// A stream whose header has such a signature and such sizes of the parts of modules and of contributions, with a word of
/// the part of modules and the bytes of the part of contributions behind it.
fn stream_of(
    alloc: Global,
    signature: u32,
    sizes: (u32, u32),
    part: &[u8],
) -> Result<Vec<u8>, Memory> {
    let (modules, contributions) = sizes;
    let mut stream = Vec::new(alloc);
    push_fields(
        &mut stream,
        &[
            LeNumber::U32(signature),
            LeNumber::U64(0),
            LeNumber::U64(0),
            LeNumber::U32(0),
            LeNumber::U32(modules),
            LeNumber::U32(contributions),
            LeNumber::U64(0),
            LeNumber::U64(0),
            LeNumber::U64(0),
            LeNumber::U64(0),
            LeNumber::U32(0x1234_5678),
        ],
    )?;
    stream.extend_from_slice(part)?;
    Ok(stream)
}

/// What a file lists with this stream.
fn listed_in(alloc: Global, stream: &[u8]) -> Result<Vec<Contribution>, DbiError> {
    if stream.len() > 200 {
        return Err(DbiError::Memory);
    }
    let Ok(file) = write_msf(alloc, stream, &[0, 0, 0, stream.len() as u32]) else {
        return Err(DbiError::Memory);
    };
    match Msf::open(&file) {
        Ok(msf) => contributions(alloc, &msf),
        Err(kind) => Err(DbiError::Kind(kind)),
    }
}

/// What a file lists whose stream has such numbers.
fn listed(
    alloc: Global,
    signature: u32,
    sizes: (u32, u32),
    part: &[u8],
) -> Result<Vec<Contribution>, DbiError> {
    match stream_of(alloc, signature, sizes, part) {
        Ok(stream) => listed_in(alloc, &stream),
        Err(Memory) => Err(DbiError::Memory),
    }
}

/// Two contributions in the first form, as lld-link wrote them, with checksums of their bytes.
const FIRST_FORM: [u8; 60] = [
    0x2d, 0xba, 0x2e, 0xf1, //
    1, 0, 0, 0, 0x40, 0, 0, 0, 8, 0, 0, 0, 0x20, 0, 0x50, 0x60, 1, 0, 0, 0, 0x58, 0x0d, 0xaa, 0xc6,
    0, 0, 0, 0, //
    2, 0, 0, 0, 0, 0, 0, 0, 13, 0, 0, 0, 0x40, 0, 0x10, 0x40, 1, 0, 0, 0, 0xcf, 0xdb, 0x85, 0x1b,
    0, 0, 0, 0,
];

/// One contribution in the second form.
const SECOND_FORM: [u8; 36] = [
    0xe4, 0x51, 0x31, 0xf1, //
    1, 0, 0, 0, 0, 0, 0, 0, 3, 0, 0, 0, 0x20, 0, 0x50, 0x60, 0xfe, 0xff, 0, 0, 0, 0, 0, 0, 0, 0, 0,
    0, 0x70, 0x11, 1, 0,
];

/// Contributions of both forms, as `llvm-pdbutil` prints the first.
#[test]
fn contributions_of_both_forms(rt: HostRuntime) {
    let expected = [
        Contribution {
            section: 1,
            offset: 64,
            size: 8,
            flags: 0x6050_0020,
            module: 1,
            coff: 0,
        },
        Contribution {
            section: 2,
            offset: 0,
            size: 13,
            flags: 0x4010_0040,
            module: 1,
            coff: 0,
        },
    ];
    let first = listed(rt.alloc(), u32::MAX, (4, 60), &FIRST_FORM);
    assert!(rt; first.is_ok_and(|list| list.as_slice() == expected.as_slice()));

    let expected = [Contribution {
        section: 1,
        offset: 0,
        size: 3,
        flags: 0x6050_0020,
        module: 65_534,
        coff: 70_000,
    }];
    let second = listed(rt.alloc(), u32::MAX, (4, 36), &SECOND_FORM);
    assert!(rt; second.is_ok_and(|list| list.as_slice() == expected.as_slice()));

    // No records.
    let none = listed(rt.alloc(), u32::MAX, (4, 4), &SECOND_FORM);
    assert!(rt; none.is_ok_and(|list| list.is_empty()));
}

/// A stream that is malformed in one place is refused, and so is a file without one.
#[test]
fn a_malformed_stream_is_refused(rt: HostRuntime) {
    let refused = Some(DbiError::Kind(PdbKind::Header));
    for (signature, modules, contributions) in [
        // Another first word.
        (0xffff_fffeu32, 4u32, 60u32),
        // The part leaves the stream, by one byte or by all that two sizes can say.
        (u32::MAX, 4, 61),
        (u32::MAX, 5, 60),
        (u32::MAX, u32::MAX, u32::MAX),
        // The last record is cut, also where nothing but the first word is there.
        (u32::MAX, 4, 59),
        (u32::MAX, 4, 5),
        (u32::MAX, 4, 3),
        (u32::MAX, 4, 0),
        // The part begins as no form does.
        (u32::MAX, 0, 60),
    ] {
        let answer = listed(rt.alloc(), signature, (modules, contributions), &FIRST_FORM);
        assert_eq!(rt;
            answer.err(),
            refused,
            "{signature} {modules} {contributions}"
        );
    }
    // A record of the second form is longer.
    assert_eq!(rt;
        listed(rt.alloc(), u32::MAX, (4, 32), &SECOND_FORM).err(),
        refused
    );

    // An empty stream, a header that is cut, and no stream.
    assert_eq!(rt; listed_in(rt.alloc(), &[]).err(), refused);
    assert_eq!(rt; listed_in(rt.alloc(), &[0xff; 63]).err(), refused);
    let answer = match write_msf(rt.alloc(), &[], &[0, 0, 0]) {
        Ok(file) => match Msf::open(&file) {
            Ok(msf) => contributions(rt.alloc(), &msf).err(),
            Err(kind) => Some(DbiError::Kind(kind)),
        },
        Err(_) => None,
    };
    assert_eq!(rt; answer, refused);
}
