//! Laws of the definitions, each the contract of a function that does nothing.

ghost use Rattle.std.specs.Prelude.{◌≡◌, ◌≤◌, ◌<◌, ◌+◌, ◌*◌, ℕ, List, [], length, map, slice_index_or, None};
ghost use Rattle.std.specs.List.{slice_get};
ghost use Rattle.link_base.specs.Bytes.{bytes_at};
ghost use Rattle.pdb_msf.specs.BlockFile.{BLOCK_SIZE, msf_fault};
ghost use Rattle.pdb_msf.specs.Streams.{stream_of};
ghost use Rattle.pdb_msf.specs.WrittenFile.{MSF_LIMIT, DATA_BLOCKS, block_number, block_total, file_size, blocks_of_data, map_block, padded, msf_of};

/// The file of at most 64 streams that is not too large opens, and has exactly these streams.
#[tactic(auto, using(crate::proofs::LawLemmas::opens, crate::proofs::LawLemmas::reads))]
pub fn written_streams_are_read()
    ensures opens { (streams : List (List ℕ)) → length streams ≤ 64 → file_size (map length streams) ≤ MSF_LIMIT
        → msf_fault (msf_of streams) ≡ None }
    ensures reads { (streams : List (List ℕ)) → length streams ≤ 64 → file_size (map length streams) ≤ MSF_LIMIT
        → (i : ℕ) → stream_of (msf_of streams) i ≡ slice_get streams i }
{}

/// In such a file the n-th block of data stands in the block of its number, and of every 4,096 blocks the second and the
/// third are the same block of the free map.
#[tactic(auto, using(crate::proofs::LawLemmas::block_stands, crate::proofs::LawLemmas::first_map_stands, crate::proofs::LawLemmas::second_map_stands))]
pub fn blocks_stand_at_their_numbers()
    ensures blocks { (streams : List (List ℕ)) → length streams ≤ 64 → file_size (map length streams) ≤ MSF_LIMIT
        → (n : ℕ) → n < length (blocks_of_data (map length streams) streams)
        → bytes_at (msf_of streams) (BLOCK_SIZE * block_number n) BLOCK_SIZE ≡ padded (slice_index_or (blocks_of_data (map length streams) streams) n []) }
    ensures first_maps { (streams : List (List ℕ)) → length streams ≤ 64 → file_size (map length streams) ≤ MSF_LIMIT
        → (k : ℕ) → DATA_BLOCKS * k + 1 < length (blocks_of_data (map length streams) streams)
        → bytes_at (msf_of streams) (BLOCK_SIZE * (BLOCK_SIZE * k + 1)) BLOCK_SIZE ≡ map_block (block_total (map length streams)) k }
    ensures second_maps { (streams : List (List ℕ)) → length streams ≤ 64 → file_size (map length streams) ≤ MSF_LIMIT
        → (k : ℕ) → DATA_BLOCKS * k + 1 < length (blocks_of_data (map length streams) streams)
        → bytes_at (msf_of streams) (BLOCK_SIZE * (BLOCK_SIZE * k + 2)) BLOCK_SIZE ≡ map_block (block_total (map length streams)) k }
{}
