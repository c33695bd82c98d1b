//! A small file and its tree, what is wrong with other files, and what is found in a tree.

use link_base::{ResFault, ResName};
use res_merge::{ResError, Resource, Resources, find_resource, tree, tree_length};
use std::alloc::Global;
use std::test::Fail;

/// A file of one resource: the data AB of the type 10, the name 1 and the language 0x409.
const FILE: &[u8] = b"\x00\x00\x00\x00\x20\x00\x00\x00\xff\xff\x00\x00\xff\xff\x00\x00\
    \x00\x00\x00\x00\x00\x00\x00\x00\x00\x00\x00\x00\x00\x00\x00\x00\
    \x02\x00\x00\x00\x20\x00\x00\x00\xff\xff\x0a\x00\xff\xff\x01\x00\
    \x00\x00\x00\x00\x30\x00\x09\x04\x00\x00\x00\x00\x00\x00\x00\x00AB";

#[test]
fn a_resource_is_read_and_the_zeros_behind_it_may_be_missing(rt: HostRuntime) -> Result<(), Fail> {
    let mut resources = Resources::new(FILE);
    match resources.next() {
        Some(Ok(resource)) => {
            assert!(rt;
                resource.kind == ResName::Number(10) && resource.name == ResName::Number(1)
            );
            assert_eq!(rt; resource.language, 0x409);
            assert_eq!(rt; resource.body, b"AB".as_slice());
        }
        _ => return Err("no resource".into()),
    }
    assert!(rt; resources.next().is_none());
    Ok(())
}

/// A length of the file, a place in it and another byte there, and what is wrong then.
const FAULTS: [(usize, usize, u8, ResFault, u32); 9] = [
    (31, 0, 0, ResFault::Header, 0),
    (39, 0, 0, ResFault::Header, 32),
    (42, 0, 0, ResFault::Header, 32),
    // no zero unit ends the type
    (48, 40, 0xfe, ResFault::Header, 32),
    (63, 0, 0, ResFault::Header, 32),
    // the size of the header: no multiple of four, too small, beyond the file
    (66, 36, 0x1e, ResFault::Header, 32),
    (66, 36, 0x1c, ResFault::Header, 32),
    (66, 36, 0x24, ResFault::Header, 32),
    (65, 0, 0, ResFault::Data, 32),
];

fn first_fault(bytes: &[u8]) -> Option<ResError> {
    if bytes.len() > 100_000 {
        return None;
    }
    match Resources::new(bytes).next() {
        Some(Err(error)) => Some(error),
        _ => None,
    }
}

#[test]
fn a_malformed_entry_is_an_error_at_its_offset(rt: HostRuntime) -> Result<(), Fail> {
    for (len, place, byte, kind, at) in FAULTS {
        let mut bytes = FILE.to_vec(rt.alloc())?;
        if let Some(old) = bytes.get_mut(place) {
            *old = byte;
        }
        bytes.truncate(len);
        assert_eq!(rt;
            first_fault(&bytes),
            Some(ResError { kind, at }),
            "{len} {place}"
        );
    }
    Ok(())
}

/// A type that has so many units of the letter A and no zero unit.
fn long_type(alloc: Global, units: usize) -> Result<Option<ResError>, Fail> {
    let mut bytes = FILE.to_vec(alloc)?;
    bytes.truncate(40);
    for _ in 0..units {
        bytes.extend_from_slice(b"A\0")?;
    }
    Ok(first_fault(&bytes))
}

#[test]
fn a_type_of_32001_units_is_too_long(rt: HostRuntime) -> Result<(), Fail> {
    let name = Some(ResError {
        kind: ResFault::Name,
        at: 32,
    });
    let header = Some(ResError {
        kind: ResFault::Header,
        at: 32,
    });
    assert_eq!(rt; long_type(rt.alloc(), 32_000)?, header);
    assert_eq!(rt; long_type(rt.alloc(), 32_001)?, name);
    Ok(())
}

/// Two resources of the type 10 and the language 0x409: the number 1, and the text N.
#[test]
fn a_tree_has_its_texts_first_and_its_resources_are_found(rt: HostRuntime) -> Result<(), Fail> {
    let list = [
        Resource {
            kind: ResName::Number(10),
            name: ResName::Number(1),
            language: 0x409,
            body: b"Y",
        },
        Resource {
            kind: ResName::Number(10),
            name: ResName::Text(b"N\0"),
            language: 0x409,
            body: b"X",
        },
    ];
    let out = tree(rt.alloc(), &list, 0, 0x2000)?;
    assert_eq!(rt;
        Some(tree_length(rt.alloc(), &list)? as usize),
        Some(out.len())
    );
    assert!(rt; out.len() == 0x91);
    assert_eq!(rt;
        &out[0x24..0x38],
        b"\x01\0\x01\0\x88\0\0\x80\x38\0\0\x80\x01\0\0\0\x50\0\0\x80".as_slice()
    );
    let mut memory = vec![in rt.alloc(); 0u8; 0x2000]?;
    memory.extend_from_slice(&out)?;
    assert!(rt; memory.len() == 0x2091);
    let kind = ResName::Number(10);
    for (name, found) in [
        (ResName::Number(1), Some((0x2090, 1))),
        (ResName::Text(b"N\0"), Some((0x208c, 1))),
        (ResName::Number(2), None),
        (ResName::Text(b"M\0"), None),
    ] {
        assert_eq!(rt;
            find_resource(&memory, 0x2000, 0x91, kind, name, 0x409),
            found
        );
        assert_eq!(rt;
            find_resource(&memory, 0x2000, 0x91, kind, name, 0x40a),
            None
        );
    }
    Ok(())
}
