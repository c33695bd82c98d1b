//! What is wrong with the header of a short import.

ghost use Rattle.std.specs.Prelude.{◌≡◌};
ghost use Rattle.short_import.specs.ImportFaults.{is_cut, header_fault};

use crate::constants::{IMPORT_CONST, IMPORT_NAME_UNDECORATE};
use crate::fields::{HEADER_SIZE, data_size, import_type, machine, name_type};
use link_base::ImpFault;
use link_base::pe_format::FILE_MACHINE_AMD64;

/// Whether the header or the data leave the file.
#[tactic(auto, unfolding(crate::specs::ImportFaults::is_cut))]
fn is_cut(bytes: &[u8]) -> bool
    ensures { result ≡ is_cut bytes.now }
{
    bytes.len() < HEADER_SIZE || bytes.len() < HEADER_SIZE + data_size(bytes)
}

/// The first fault of the header, each judged where no earlier one stands.
#[tactic(auto, using(crate::proofs::WholeLemmas::header_whole), unfolding(crate::specs::ImportFaults::header_fault))]
pub(crate) fn header_fault(bytes: &[u8]) -> Option<ImpFault>
    ensures { result ≡ header_fault bytes.now }
{
    if is_cut(bytes) {
        return Some(ImpFault::Length);
    }
    if machine(bytes) != FILE_MACHINE_AMD64 {
        return Some(ImpFault::Machine);
    }
    if import_type(bytes) > IMPORT_CONST {
        return Some(ImpFault::Kind);
    }
    if name_type(bytes) > IMPORT_NAME_UNDECORATE {
        return Some(ImpFault::NameType);
    }
    None
}
