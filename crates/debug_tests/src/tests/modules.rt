use link_base::{Name, field_u32};
use pdb_dbi::{Contribution, ModuleName, contributions, write_dbi, write_info, write_types};
use std::test::Fail;

/// The header of a section of code and of one of data.
const HEADERS: [u8; 80] = [
    0x2e, 0x74, 0x65, 0x78, 0x74, 0, 0, 0, 3, 0, 0, 0, 0, 0x10, 0, 0, 0, 2, 0, 0, //
    0, 2, 0, 0, 0, 0, 0, 0, 0, 0, 0, 0, 0, 0, 0, 0, 0x20, 0, 0, 0x60, //
    0x2e, 0x72, 0x64, 0x61, 0x74, 0x61, 0, 0, 58, 0, 0, 0, 0, 0x20, 0, 0, 0, 2, 0, 0, //
    0, 4, 0, 0, 0, 0, 0, 0, 0, 0, 0, 0, 0, 0, 0, 0, 0x40, 0, 0, 0xc0,
];

/// One object of a section of code, and data that the linker makes: the header, the records of both modules, the
/// contributions, and the parts behind them, as LLVM documents them.
#[test]
fn a_stream_of_two_modules(rt: HostRuntime) -> Result<(), Fail> {
    let modules = [
        ModuleName {
            name: Name::of(b"a.obj"),
            file: Name::of(b"a.obj"),
        },
        ModuleName {
            name: Name::of(b"* Linker *"),
            file: Name::of(b""),
        },
    ];
    let list = [
        Contribution {
            section: 1,
            offset: 0,
            size: 3,
            flags: 0x6050_0020,
            module: 0,
            coff: 1,
        },
        Contribution {
            section: 2,
            offset: 0,
            size: 28,
            flags: 0x4000_0040,
            module: 1,
            coff: 0,
        },
        Contribution {
            section: 2,
            offset: 28,
            size: 30,
            flags: 0x4000_0040,
            module: 1,
            coff: 0,
        },
    ];
    let stream = write_dbi(rt.alloc(), &modules, &list, &HEADERS)?;
    assert_eq!(rt; stream.len(), 414);
    for (at, number) in [
        // The header: its begin, the streams, the sizes of the parts, and the machine.
        (0usize, 0xffff_ffffu32),
        (4, 19_990_903),
        (8, 1),
        (12, 0x8e00_0005),
        (16, 6),
        (20, 7),
        (24, 152),
        (28, 100),
        (32, 64),
        (36, 12),
        (40, 0),
        (48, 22),
        (52, 0),
        (56, 0x8664_0000),
        // The record of the object, with its contribution and its names.
        (64, 0),
        (68, 1),
        (76, 3),
        (80, 0x6050_0020),
        (84, 0),
        (96, 0xffff_0000),
        (128, 0x626f_2e61),
        (132, 0x2e61_006a),
        (136, 0x006a_626f),
        // That of the linker, with the first of its two.
        (144, 2),
        (152, 28),
        (160, 1),
        (204, 0x694c_202a),
        (212, 0x2a20),
        // The contributions.
        (216, 0xf131_51e4),
        (220, 1),
        (248, 1),
        (252, 2),
        (284, 2),
        (288, 28),
        (292, 30),
        (300, 1),
        (312, 0),
        // The section map: sections that may be read and executed, read and written, and absolute addresses.
        (316, 0x0003_0003),
        (320, 0x010d),
        (326, 0xffff_0001),
        (336, 3),
        (340, 0x010b),
        (356, 58),
        (360, 0x0208),
        (366, 0xffff_0003),
        (376, 0xffff_ffff),
        // No source files, and the one stream that is there.
        (380, 2),
        (384, 0),
        (388, 0),
        (392, 0xffff_ffff),
        (402, 0xffff_0008),
        (410, 0xffff_ffff),
    ] {
        assert_eq!(rt; field_u32(&stream, at), Some(number), "at {at}");
    }
    Ok(())
}

/// The information stream, and the stream of no types.
#[test]
fn streams_that_hold_little(rt: HostRuntime) -> Result<(), Fail> {
    let id = [1, 2, 3, 4, 5, 6, 7, 8, 9, 10, 11, 12, 13, 14, 15, 16];
    let info = write_info(rt.alloc(), 0x1234_5678, id)?;
    let expected = [
        0x94, 0x2e, 0x31, 0x01, 0x78, 0x56, 0x34, 0x12, 1, 0, 0, 0, // version, time, age
        1, 2, 3, 4, 5, 6, 7, 8, 9, 10, 11, 12, 13, 14, 15, 16, // the identifier
        0, 0, 0, 0, 0, 0, 0, 0, 8, 0, 0, 0, 0, 0, 0, 0, // no named streams
        0, 0, 0, 0, 0, 0, 0, 0, 0xdc, 0x51, 0x33, 0x01, // the feature
    ];
    assert_eq!(rt; info.as_slice(), expected.as_slice());

    let types = write_types(rt.alloc())?;
    let expected = [
        0x0b, 0xca, 0x31, 0x01, 56, 0, 0, 0, 0, 0x10, 0, 0, 0, 0x10, 0, 0, 0, 0, 0, 0, //
        0xff, 0xff, 0xff, 0xff, 4, 0, 0, 0, 0xff, 0xff, 3, 0, //
        0, 0, 0, 0, 0, 0, 0, 0, 0, 0, 0, 0, 0, 0, 0, 0, 0, 0, 0, 0, 0, 0, 0, 0,
    ];
    assert_eq!(rt; types.as_slice(), expected.as_slice());
    Ok(())
}
