//! Texts in a memory, each up to a NUL.

ghost use Rattle.std.specs.Prelude.{◌≡◌};
ghost use Rattle.link_base.specs.Bytes.{text_at};
ghost use Rattle.export_tables.specs.ExportDirectory.{is_text, EndTexts};

use link_base::{Name, cstr};
use memchr::memrchr;

/// Behind the last NUL: the texts end that begin before it, and no others.
pub(crate) fn texts_end(memory: &[u8]) -> usize
    ensures { EndTexts memory.now result }
{
    match memrchr(0, memory) {
        Some(at) => at + 1,
        None => 0,
    }
}

/// Whether the text at an RVA is a name. No more bytes are looked at than the name and a NUL have.
pub(crate) fn is_text_at(memory: &[u8], rva: u32, name: &Name<'_>) -> bool
    ensures { result ≡ is_text (text_at memory.now rva) name.now }
{
    let at = rva as usize;
    if at > memory.len() {
        return false;
    }
    let (_, rest) = memory.split_at(at);
    if rest.len() <= name.len() {
        return false;
    }
    let (window, _) = rest.split_at(name.len() + 1);
    match cstr(window, 0) {
        Some(text) => text == *name,
        None => false,
    }
}
