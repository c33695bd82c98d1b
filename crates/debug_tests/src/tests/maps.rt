use link_base::Name;
use map_file::{MapModule, MapPiece, MapPublic, MapRows, MapSection, map_text};
use std::test::Fail;

fn name(text: &str) -> Name<'_> {
    Name::of(text.as_bytes())
}

/// A map of one object, and one with a library's member, odd names and the greatest numbers.
#[test]
fn a_map_is_a_line_for_each_row(rt: HostRuntime) -> Result<(), Fail> {
    let rows = MapRows {
        base: 0x1_4000_0000,
        image: 0x2000,
        entry: 0x1000,
        modules: vec![in rt.alloc();
            MapModule {
                file: name("a.obj"),
                member: None
            },
        ]?,
        sections: vec![in rt.alloc();
            MapSection {
                name: name(".text"),
                rva: 0x1000,
                size: 3,
                flags: 0x6000_0020
            },
        ]?,
        pieces: vec![in rt.alloc();
            MapPiece {
                rva: 0x1000,
                size: 3,
                module: 0,
                name: name(".text")
            },
        ]?,
        publics: vec![in rt.alloc();
            MapPublic {
                rva: 0x1000,
                module: 0,
                name: name("main")
            },
        ]?,
    };
    let expected = "image 0000000140000000 00002000 entry 00001000\n\
        module 0 a.obj\n\
        section 1 .text 00001000 00000003 60000020\n\
        piece 00001000 00000003 0 .text\n\
        public 00001000 0 main\n";
    assert_eq!(rt;
        map_text(rt.alloc(), &rows)?.as_slice(),
        expected.as_bytes()
    );

    let rows = MapRows {
        base: 0xffff_ffff_ffff_0000,
        image: 0xffff_ffff,
        entry: 0,
        modules: vec![in rt.alloc();
            MapModule {
                file: name("a b.lib"),
                member: Some(name("m\\.obj"))
            },
            MapModule {
                file: name(""),
                member: None
            },
        ]?,
        sections: vec![in rt.alloc();
            MapSection {
                name: name(".a"),
                rva: 0,
                size: 0,
                flags: 0
            },
            MapSection {
                name: name(".b"),
                rva: 0xabcd,
                size: 1,
                flags: 0xc000_0040
            },
        ]?,
        pieces: Vec::new(rt.alloc()),
        publics: vec![in rt.alloc();
            MapPublic {
                rva: 9,
                module: 65_534,
                name: name("__imp_f")
            },
        ]?,
    };
    let expected = "image FFFFFFFFFFFF0000 FFFFFFFF entry 00000000\n\
        module 0 a\\x20b.lib:m\\x5C.obj\n\
        module 1 \n\
        section 1 .a 00000000 00000000 00000000\n\
        section 2 .b 0000ABCD 00000001 C0000040\n\
        public 00000009 65534 __imp_f\n";
    assert_eq!(rt;
        map_text(rt.alloc(), &rows)?.as_slice(),
        expected.as_bytes()
    );
    Ok(())
}
