//! The texts of a short import, behind its header (PE Format, "Import Library Format").

ghost use Rattle.std.specs.Prelude.{◌≡◌, ◌≤◌, length, false, IfOk, IfErr, OnOk, is_ok, is_none, Some};
ghost use Rattle.short_import.specs.ShortImport.{import_data, text_from, symbol_of, dll_of};
ghost use Rattle.short_import.specs.ImportFaults.{is_cut, import_fault};

use crate::fault::header_fault;
use crate::fields::{HEADER_SIZE, data_size};
use link_base::{ImpFault, cstr, slice_in};

/// The symbol and the name of the DLL.
#[derive(Drop)]
pub(crate) struct Texts<'a> {
    pub(crate) symbol: &'a [u8],
    pub(crate) dll: &'a [u8],
}

/// The texts of a short import, or its first fault.
#[tactic(auto, unfolding(crate::specs::ShortImport::symbol_of, crate::specs::ShortImport::dll_of, crate::specs::ImportFaults::import_fault))]
pub(crate) fn texts_in(bytes: &[u8]) -> Result<Texts<'_>, ImpFault>
    ensures symbol { IfOk result (λ texts. texts.symbol.now ≡ symbol_of bytes.now) }
    ensures dll { IfOk result (λ texts. texts.dll.now ≡ dll_of bytes.now) }
    ensures header { OnOk result (20 ≤ length bytes.now) }
    ensures refused { IfErr result (λ fault. import_fault bytes.now ≡ Some fault) }
    ensures reads { is_ok result ≡ is_none (import_fault bytes.now) }
{
    if let Some(fault) = header_fault(bytes) {
        return Err(fault);
    }
    let texts = import_data(bytes);
    let symbol = text_from(texts, 0);
    let dll = text_from(texts, symbol.len() + 1);
    if symbol.is_empty() || dll.is_empty() {
        return Err(ImpFault::Text);
    }
    Ok(Texts { symbol, dll })
}

/// The bytes behind the header that the header counts.
#[tactic(auto, using(crate::proofs::WholeLemmas::header_whole, crate::proofs::WholeLemmas::data_whole))]
fn import_data(bytes: &[u8]) -> &[u8]
    requires { is_cut bytes.now ≡ false }
    ensures { result.now ≡ import_data bytes.now }
{
    slice_in(bytes, HEADER_SIZE, data_size(bytes))
}

/// The text from `at` up to the first NUL at or after it, empty where there is none.
#[tactic(auto, unfolding(crate::specs::ShortImport::text_from))]
fn text_from(bytes: &[u8], at: usize) -> &[u8]
    ensures { result.now ≡ text_from bytes.now at }
{
    match cstr(bytes, at) {
        Some(text) => slice_in(bytes, at, text.len()),
        None => &[],
    }
}
