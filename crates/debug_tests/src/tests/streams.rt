use link_base::{PdbKind, field_u32};
use pdb_msf::{Msf, StreamError, write_msf};
use std::test::Fail;

/// One stream of three bytes: the superblock, two free maps, the block of the directory's numbers, the directory and the
/// stream, each a block.
#[test]
fn a_small_file_has_six_blocks(rt: HostRuntime) -> Result<(), Fail> {
    let file = write_msf(rt.alloc(), b"abc", &[3])?;
    assert_eq!(rt; file.len(), 6 * 4096);
    assert!(rt; file.starts_with(b"Microsoft C/C++ MSF 7.00\r\n\x1aDS\0\0\0"));
    for (at, number) in [
        // The superblock.
        (32usize, 4096u32),
        (36, 1),
        (40, 6),
        (44, 12),
        (48, 0),
        (52, 3),
        (56, 0),
        // Both free maps: six blocks are used.
        (4096, 0xffff_ffc0),
        (4100, 0xffff_ffff),
        (8192, 0xffff_ffc0),
        (12_284, 0xffff_ffff),
        // The block of the directory, and the directory.
        (12_288, 4),
        (12_292, 0),
        (16_384, 1),
        (16_388, 3),
        (16_392, 5),
        (16_396, 0),
        // The stream.
        (20_480, 0x0063_6261),
    ] {
        assert_eq!(rt; field_u32(&file, at), Some(number), "at {at}");
    }

    let msf = Msf::open(&file)?;
    assert_eq!(rt; msf.stream_len(0), Some(3));
    assert_eq!(rt; msf.stream_len(1), None);
    assert_eq!(rt; msf.stream_byte(0, 2), Some(b'c'));
    assert_eq!(rt; msf.stream_byte(0, 3), None);
    assert_eq!(rt; msf.stream(rt.alloc(), 0)?.as_slice(), b"abc".as_slice());
    assert_eq!(rt; msf.stream(rt.alloc(), 9).err(), Some(StreamError::Missing));
    Ok(())
}

/// What is wrong with the first bytes of a file alone.
fn refusal_of_first(file: &[u8], len: usize) -> Option<PdbKind> {
    if len > file.len() {
        return None;
    }
    let (front, _) = file.split_at(len);
    Msf::open(front).err()
}

/// A file of one stream with some numbers of four bytes changed is refused for the first kind that stands.
#[test]
fn a_file_is_refused_for_its_first_fault(rt: HostRuntime) -> Result<(), Fail> {
    let whole = write_msf(rt.alloc(), b"abc", &[3])?;
    assert!(rt; whole.len() == 24_576);
    for (at, number, kind) in [
        (0usize, 0u32, PdbKind::Superblock),
        (28, 1, PdbKind::Superblock),
        // The size of blocks, their number, and the block of the directory's numbers.
        (32, 512, PdbKind::Blocks),
        (40, 7, PdbKind::Blocks),
        (52, 6, PdbKind::Blocks),
        // A block of the directory, and one of the stream.
        (12_288, 6, PdbKind::Blocks),
        (16_392, u32::MAX, PdbKind::Blocks),
        // A directory without its last number, without any, and one of more than 1,024 blocks.
        (44, 11, PdbKind::Directory),
        (44, 3, PdbKind::Directory),
        (44, 4_194_305, PdbKind::Directory),
        // More streams, and a longer one, than the directory has numbers for.
        (16_384, 2, PdbKind::Directory),
        (16_384, u32::MAX, PdbKind::Directory),
        (16_388, 4097, PdbKind::Directory),
    ] {
        let mut file = whole.clone()?;
        assert!(rt; at < 20_000 && file.len() == 24_576);
        file[at..at + 4].copy_from_slice(&number.to_le_bytes());
        assert_eq!(rt; Msf::open(&file).err(), Some(kind), "at {at}");
    }
    assert_eq!(rt; refusal_of_first(&whole, 24_575), Some(PdbKind::Blocks));
    assert_eq!(rt; refusal_of_first(&whole, 55), Some(PdbKind::Superblock));
    Ok(())
}
