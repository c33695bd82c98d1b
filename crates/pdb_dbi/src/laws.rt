//! Laws of the definitions, each the contract of a function that does nothing.

ghost use Rattle.std.specs.Prelude.{◌≡◌, ◌≤◌, ◌%◌, ℕ, List, All, length, map, Some};
ghost use Rattle.std.specs.List.{slice_get};
ghost use Rattle.pdb_msf.specs.WrittenFile.{MSF_LIMIT, file_size, msf_of};
ghost use Rattle.pdb_dbi.specs.Contribution.{FitsFields, first_part, without_coff};
ghost use Rattle.pdb_dbi.specs.ModuleInfo.{module_record};
ghost use Rattle.pdb_dbi.specs.DbiStream.{STREAM_LIMIT, dbi_of, dbi_of_parts, dbi_size};
ghost use Rattle.pdb_dbi.specs.SectionMap.{section_count};
ghost use Rattle.pdb_dbi.specs.DbiReading.{DBI_STREAM, contributions_in, contributions_of};

use crate::rows::{Contribution, ModuleName};
use pdb_msf::written_streams_are_read;

/// What is read from a stream that was written is the contributions that were given, by itself and as stream 3 of a
/// multi-stream file that was written.
#[tactic(auto, using(crate::proofs::LawLemmas::stream_read))]
pub fn written_contributions_are_read()
    ensures stream { (modules : List ModuleName) (list : List Contribution) (headers : List ℕ) → All FitsFields list
        → length (dbi_of modules list headers) ≤ STREAM_LIMIT → contributions_in (dbi_of modules list headers) ≡ Some list }
    ensures file { (streams : List (List ℕ)) (modules : List ModuleName) (list : List Contribution) (headers : List ℕ) → All FitsFields list
        → length (dbi_of modules list headers) ≤ STREAM_LIMIT → length streams ≤ 64 → file_size (map length streams) ≤ MSF_LIMIT
        → slice_get streams DBI_STREAM ≡ Some (dbi_of modules list headers) → contributions_of (msf_of streams) ≡ Some list }
{
    written_streams_are_read();
}

/// From a stream whose part of contributions has the first form the same is read, without the sections of the objects.
#[tactic(auto, using(crate::proofs::LawLemmas::first_form_read))]
pub fn contributions_of_the_first_form_are_read()
    ensures { (modules : List ℕ) (sections : List ℕ) (files : List ℕ) (list : List Contribution) → All FitsFields list
        → length (dbi_of_parts modules (first_part list) sections files) ≤ STREAM_LIMIT
        → contributions_in (dbi_of_parts modules (first_part list) sections files) ≡ Some (map without_coff list) }
{}

/// The record of each module takes a multiple of 4 bytes, so that each record begins at one.
#[tactic(auto, using(crate::proofs::SizeLemmas::record_aligned))]
pub fn module_records_are_aligned()
    ensures { (list : List Contribution) (position : ℕ) (names : ModuleName) → length (module_record list (position, names)) % 4 ≡ 0 }
{}

/// The size of a stream that is written, by the names of the modules, the number of contributions and that of sections.
#[tactic(auto, using(crate::proofs::SizeLemmas::length_dbi))]
pub fn size_of_a_written_stream()
    ensures { (modules : List ModuleName) (list : List Contribution) (headers : List ℕ)
        → length (dbi_of modules list headers) ≡ dbi_size modules (length list) (section_count headers) }
{}
