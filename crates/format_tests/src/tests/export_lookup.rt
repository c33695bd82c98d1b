//! What a small directory exports, and what is left of it where its bytes are others or the memory ends before it does.

use export_tables::{Exported, by_name, by_ordinal};
use link_base::Name;
use std::test::Fail;

/// A directory at RVA 8, with ordinals from 5 on: three addresses at 48, two RVAs of names at 60 and two indexes at 68. `b`
/// is the first address, 0x1000, and `a` the third, a forwarder to `k.f`. The second is 0, a hole.
const TABLE: [u8; 82] = [
    0, 0, 0, 0, 0, 0, 0, 0, //
    0, 0, 0, 0, 0, 0, 0, 0, 0, 0, 0, 0, 72, 0, 0, 0, 5, 0, 0, 0, //
    3, 0, 0, 0, 2, 0, 0, 0, 48, 0, 0, 0, 60, 0, 0, 0, 68, 0, 0, 0, //
    0x00, 0x10, 0, 0, 0, 0, 0, 0, 78, 0, 0, 0, //
    74, 0, 0, 0, 76, 0, 0, 0, 2, 0, 0, 0, //
    b'd', 0, b'a', 0, b'b', 0, b'k', b'.', b'f', 0,
];

/// The bytes of the table and the size of the directory.
const WHOLE: (usize, u32) = (82, 74);

/// What is asked for.
#[derive(Clone, Copy)]
enum Key {
    Named(&'static [u8]),
    Numbered(u16),
}

/// What is found.
#[derive(Clone, Copy)]
enum Answer {
    At(u32),
    Forwarder(&'static [u8]),
    Nothing,
}

/// What the table exports.
const EXPORTS: [(Key, Answer); 12] = [
    (Key::Named(b"b"), Answer::At(0x1000)),
    (Key::Named(b"a"), Answer::Forwarder(b"k.f")),
    (Key::Named(b"c"), Answer::Nothing),
    (Key::Named(b""), Answer::Nothing),
    (Key::Named(b"bb"), Answer::Nothing),
    (Key::Named(b"b\0"), Answer::Nothing),
    (Key::Named(b"k.f"), Answer::Nothing),
    (Key::Numbered(4), Answer::Nothing),
    (Key::Numbered(5), Answer::At(0x1000)),
    (Key::Numbered(6), Answer::Nothing),
    (Key::Numbered(7), Answer::Forwarder(b"k.f")),
    (Key::Numbered(8), Answer::Nothing),
];

/// A change: what it shows, how many bytes of the table are there and the size of the directory, the bytes that are others,
/// what is asked for and what is found.
type Change = (
    &'static str,
    (usize, u32),
    &'static [(usize, u8)],
    Key,
    Answer,
);

const CHANGES: [Change; 14] = [
    (
        "a directory of size 0",
        (82, 0),
        &[],
        Key::Numbered(5),
        Answer::Nothing,
    ),
    (
        "a field that leaves the memory",
        (47, 74),
        &[],
        Key::Numbered(5),
        Answer::Nothing,
    ),
    (
        "an address that leaves the memory",
        (51, 74),
        &[],
        Key::Numbered(5),
        Answer::Nothing,
    ),
    (
        "a text behind the range of the directory is an address",
        (82, 70),
        &[],
        Key::Numbered(7),
        Answer::At(78),
    ),
    (
        "a text whose first byte is the last of the range",
        (82, 71),
        &[],
        Key::Numbered(7),
        Answer::Forwarder(b"k.f"),
    ),
    (
        "a forwarder without its NUL",
        (81, 74),
        &[],
        Key::Named(b"a"),
        Answer::Nothing,
    ),
    (
        "a name without its NUL",
        (77, 74),
        &[],
        Key::Named(b"b"),
        Answer::Nothing,
    ),
    (
        "the name before it",
        (77, 74),
        &[(56, 74)],
        Key::Named(b"a"),
        Answer::Forwarder(b"a"),
    ),
    (
        "the RVA of a name that leaves the memory",
        (63, 74),
        &[(60, 47)],
        Key::Named(b""),
        Answer::Nothing,
    ),
    (
        "an index that leaves the memory",
        (71, 74),
        &[(64, 47), (70, 0)],
        Key::Named(b""),
        Answer::Nothing,
    ),
    (
        "an empty name",
        WHOLE,
        &[(64, 47), (70, 0)],
        Key::Named(b""),
        Answer::At(0x1000),
    ),
    (
        "an index behind the addresses",
        WHOLE,
        &[(70, 3)],
        Key::Named(b"b"),
        Answer::Nothing,
    ),
    (
        "two entries of a name, of which the first is that of the hole",
        WHOLE,
        &[(60, 76), (68, 1)],
        Key::Named(b"b"),
        Answer::At(0x1000),
    ),
    (
        "more names than the memory has room for",
        WHOLE,
        &[(35, 0xff)],
        Key::Named(b"c"),
        Answer::Nothing,
    ),
];

/// Puts other bytes in their places.
fn change(memory: &mut [u8], changes: &[(usize, u8)]) {
    for (at, byte) in changes {
        if let Some(place) = memory.get_mut(*at) {
            *place = *byte;
        }
    }
}

/// Whether a memory exports this.
fn exports(memory: &[u8], size: u32, key: Key, wanted: Answer) -> bool {
    let found = match key {
        Key::Named(name) => by_name(memory, 8, size, Name::of(name)),
        Key::Numbered(ordinal) => by_ordinal(memory, 8, size, ordinal),
    };
    match (found, wanted) {
        (Exported::Address(rva), Answer::At(wanted)) => rva == wanted,
        (Exported::Forward(text), Answer::Forwarder(wanted)) => text == Name::of(wanted),
        (Exported::Missing, Answer::Nothing) => true,
        _ => false,
    }
}

#[test]
fn a_table_exports_its_entries(rt: HostRuntime) -> Result<(), Fail> {
    for (index, (key, wanted)) in EXPORTS.into_iter().enumerate() {
        let as_wanted = exports(&TABLE, WHOLE.1, key, wanted);
        assert!(rt; as_wanted, "row {index}");
    }
    Ok(())
}

#[test]
fn an_entry_that_leaves_the_memory_is_not_there(rt: HostRuntime) -> Result<(), Fail> {
    for (title, (len, size), changes, key, wanted) in CHANGES {
        let mut memory = Vec::from_slice(rt.alloc(), &TABLE)?;
        change(memory.as_mut_slice(), changes);
        memory.truncate(len);
        let as_wanted = exports(memory.as_slice(), size, key, wanted);
        assert!(rt; as_wanted, "{title}");
    }
    Ok(())
}
