//! The imports of a small mapped image, and where others leave the memory.

use import_tables::{TableError, read_imports};
use link_base::Name;
use short_import::ImportBy;
use std::alloc::Global;
use std::test::Fail;

/// From RVA 0x10 on the descriptor of `k.dll`, and one of zeros; at 0x40 its lookup table, which imports the ordinal 7, and
/// `f` by the hint 3; at 0x58 the slots; at 0x70 the DLL's name; at 0x78 the hint and the name.
const IMAGE: &[u8] = b"\x00\x00\x00\x00\x00\x00\x00\x00\x00\x00\x00\x00\x00\x00\x00\x00\
    \x40\x00\x00\x00\x00\x00\x00\x00\x00\x00\x00\x00\x70\x00\x00\x00\x58\x00\x00\x00\
    \x00\x00\x00\x00\x00\x00\x00\x00\x00\x00\x00\x00\x00\x00\x00\x00\x00\x00\x00\x00\
    \x00\x00\x00\x00\x00\x00\x00\x00\
    \x07\x00\x00\x00\x00\x00\x00\x80\x78\x00\x00\x00\x00\x00\x00\x00\x00\x00\x00\x00\x00\x00\x00\x00\
    \x11\x11\x11\x11\x11\x11\x11\x11\x22\x22\x22\x22\x22\x22\x22\x22\x00\x00\x00\x00\x00\x00\x00\x00\
    k.dll\x00\x00\x00\
    \x03\x00f\x00";

#[test]
fn imports_are_read(rt: HostRuntime) -> Result<(), Fail> {
    let found = read_imports(rt.alloc(), IMAGE, 0x10).map_err(|_| "refused")?;
    let named = ImportBy::Named {
        hint: 3,
        name: Name::of(b"f"),
    };
    let wanted = [(ImportBy::Ordinal(7), 0x58), (named, 0x60)];
    assert_eq!(rt; found.len(), wanted.len());
    for ((by, slot), import) in wanted.iter().zip(found.iter()) {
        assert!(rt; import.dll == Name::of(b"k.dll"));
        assert!(rt; import.by == *by);
        assert_eq!(rt; import.slot, *slot);
    }
    Ok(())
}

/// How many bytes of the image are there, a place in it and another byte there, the RVA of the directory, and what comes:
/// how many imports, or the RVA at which the walk leaves the memory.
const ANSWERS: [(usize, usize, u8, u32, Result<usize, u32>); 14] = [
    (0x7c, 0, 0, 0x10, Ok(2)),
    (0x7c, 0, 0, 0, Ok(0)),
    (0x7c, 0, 0, 0x24, Ok(0)),
    // a descriptor
    (0x7c, 0, 0, 0x69, Err(0x69)),
    // the name of the DLL, and its NUL; that of a third descriptor, where the second is none of zeros
    (0x7c, 0x1c, 0x7c, 0x10, Err(0x7c)),
    (0x75, 0, 0, 0x10, Err(0x70)),
    (0x7c, 0x24, 1, 0x10, Err(0x8000_0000)),
    // the entry, the slot, and the next slot
    (0x7c, 0x10, 0x75, 0x10, Err(0x75)),
    (0x7c, 0x20, 0x75, 0x10, Err(0x75)),
    (0x7c, 0x20, 0x70, 0x10, Err(0x78)),
    // the hint and the name, its NUL, and an RVA that is none
    (0x7c, 0x48, 0x7b, 0x10, Err(0x7b)),
    (0x7b, 0, 0, 0x10, Err(0x78)),
    (0x7c, 0x4b, 0x80, 0x10, Err(0x8000_0078)),
    (0x7c, 0x4c, 1, 0x10, Err(0x48)),
];

fn answer_of(
    alloc: Global,
    len: usize,
    at: usize,
    byte: u8,
    rva: u32,
) -> Result<Result<usize, u32>, TableError> {
    let mut memory = IMAGE.to_vec(alloc).map_err(|_| TableError::Memory)?;
    if let Some(place) = memory.get_mut(at) {
        *place = byte;
    }
    memory.truncate(len);
    if memory.len() > 0x7c {
        return Ok(Ok(0));
    }
    match read_imports(alloc, &memory, rva) {
        Ok(found) => Ok(Ok(found.len())),
        Err(TableError::Range(rva)) => Ok(Err(rva)),
        Err(TableError::Memory) => Err(TableError::Memory),
    }
}

#[test]
fn the_walk_leaves_the_memory(rt: HostRuntime) -> Result<(), Fail> {
    for (len, at, byte, rva, answer) in ANSWERS {
        let given = answer_of(rt.alloc(), len, at, byte, rva).map_err(|_| "no memory")?;
        assert_eq!(rt; given, answer, "{len} bytes, {byte} at {at}");
    }
    Ok(())
}
