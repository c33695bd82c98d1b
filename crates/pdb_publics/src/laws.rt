//! Laws of the definitions, each the contract of a function that does nothing.

ghost use Rattle.std.specs.Prelude.{◌≡◌, ◌≤◌, ℕ, List, length, map, slice_get, Some, Ok, IsPermutation, IsSorted};
ghost use Rattle.pdb_msf.specs.WrittenFile.{MSF_LIMIT, file_size, msf_of};
ghost use Rattle.pdb_publics.specs.PublicOrder.{row_cmp, hash_cmp, place_cmp, by_name, hash_keys, place_keys, by_hash, by_place};
ghost use Rattle.pdb_publics.specs.PublicStreams.{records_stream, publics_stream};
ghost use Rattle.pdb_publics.specs.Lookup.{found_in, found};
ghost use Rattle.pdb_publics.specs.WrittenPublics.{AreRows, public_named};

use crate::keys::{HashKey, PlaceKey};
use crate::rows::PublicRow;

/// A search in the streams of some rows finds the row of each name, and nothing for a name that no row has; and so does one
/// in a multi-stream file in which they stand.
#[tactic(auto, using(crate::proofs::FoundLemmas::rows_are_found, crate::proofs::FoundLemmas::rows_are_found_in_file))]
pub fn written_publics_are_found()
    ensures streams { (rows : List PublicRow) → AreRows rows → (name : List ℕ)
        → found_in (publics_stream rows) (records_stream rows) name ≡ Ok (public_named name rows) }
    ensures file { (rows : List PublicRow) → AreRows rows
        → (streams : List (List ℕ)) → length streams ≤ 64 → file_size (map length streams) ≤ MSF_LIMIT
        → slice_get streams 6 ≡ Some (publics_stream rows) → slice_get streams 7 ≡ Some (records_stream rows)
        → (name : List ℕ) → found (msf_of streams) name ≡ Ok (public_named name rows) }
{}

/// Each of the three orders is the only one: the same rows, or the keys of the same records, in a list that ascends are in
/// this order.
pub fn publics_have_one_order()
    ensures records { (rows sorted : List PublicRow) → IsPermutation rows sorted → IsSorted row_cmp sorted → sorted ≡ by_name rows }
    ensures hash_part { (rows : List PublicRow) (sorted : List HashKey) → IsPermutation (hash_keys 0 rows) sorted → IsSorted hash_cmp sorted → sorted ≡ by_hash rows }
    ensures address_map { (rows : List PublicRow) (sorted : List PlaceKey) → IsPermutation (place_keys 0 rows) sorted → IsSorted place_cmp sorted → sorted ≡ by_place rows }
{}
