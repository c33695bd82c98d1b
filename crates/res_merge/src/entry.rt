//! An entry of a resource file: a header, and the data (Windows, "RESOURCEHEADER").

ghost use Rattle.std.specs.Prelude.{◌≡◌, ◌≤◌, ◌<◌, ◌+◌, ◌*◌, ◌^◌, length, false, IfOk};
ghost use Rattle.res_merge.specs.ResourceFile.{aligned, heading, size_is_bad, header_is_bad, entry_read, FIELDS_SIZE};
ghost use Rattle.res_merge.specs.Read.{heading_said, entry_said};

use crate::names::name_read;
use crate::resource::Resource;
use link_base::{ResFault, ResName, slice_in, u16_in, u32_in};

/// DataVersion, MemoryFlags, LanguageId, Version and Characteristics.
const FIELDS_SIZE: usize = 16;

/// The type and the name of an entry, and where the fields behind them stand.
#[derive(Drop)]
pub(crate) struct Heading<'a> {
    kind: ResName<'a>,
    name: ResName<'a>,
    fields: usize,
}

/// A resource, and where the next entry begins.
#[derive(Clone, Copy)]
pub(crate) struct EntryRead<'a> {
    pub(crate) resource: Resource<'a>,
    pub(crate) next: usize,
}

/// The next multiple of four.
#[tactic(auto, unfolding(crate::specs::ResourceFile::aligned))]
pub(crate) fn aligned(n: usize) -> usize
    requires { n < 2 ^ 63 + 2 ^ 32 }
    ensures is { result ≡ aligned n }
    ensures above { n ≤ result }
    ensures near { result < n + 4 }
{
    4 * n.div_ceil(4)
}

#[tactic(auto, unfolding(crate::specs::ResourceFile::heading))]
fn read_heading(bytes: &[u8], offset: usize) -> Result<Heading<'_>, ResFault>
    requires small { length bytes.now < 2 ^ 32 }
    requires offset { offset ≤ length bytes.now }
    ensures read { heading_said result ≡ heading bytes.now offset }
    ensures there { IfOk result (λ heading. offset + 8 ≤ length bytes.now) }
    ensures behind { IfOk result (λ heading. offset + 8 ≤ heading.fields) }
    ensures small { IfOk result (λ heading. heading.fields < 2 ^ 40) }
{
    if bytes.len() - offset < 8 {
        return Err(ResFault::Header);
    }
    let kind = name_read(bytes, offset + 8)?;
    let name = name_read(bytes, kind.behind)?;
    Ok(Heading {
        kind: kind.name,
        name: name.name,
        fields: aligned(name.behind),
    })
}

/// Whether the size of a header is none that it can have.
#[tactic(auto, unfolding(crate::specs::ResourceFile::size_is_bad))]
fn size_is_bad(bytes: &[u8], offset: usize, end: usize) -> bool
    requires small { length bytes.now < 2 ^ 32 }
    requires there { offset + 8 ≤ length bytes.now }
    ensures { result ≡ size_is_bad bytes.now offset end }
{
    let size = u32_in(bytes, offset + 4) as usize;
    size % 4 != 0 || offset + size < end || offset + size > bytes.len()
}

#[tactic(auto, unfolding(crate::specs::ResourceFile::header_is_bad))]
fn header_is_bad(bytes: &[u8], offset: usize, fields: usize) -> bool
    requires small { length bytes.now < 2 ^ 32 }
    requires there { offset + 8 ≤ length bytes.now }
    requires fields { fields < 2 ^ 40 }
    ensures { result ≡ header_is_bad bytes.now offset fields }
{
    fields + FIELDS_SIZE > bytes.len() || size_is_bad(bytes, offset, fields + FIELDS_SIZE)
}

/// The entry at an offset, or what is wrong with it.
#[tactic(auto, unfolding(crate::specs::ResourceFile::entry_read, crate::specs::ResourceFile::entry_with))]
pub(crate) fn entry_read(bytes: &[u8], offset: usize) -> Result<EntryRead<'_>, ResFault>
    requires small { length bytes.now < 2 ^ 32 }
    requires offset { offset ≤ length bytes.now }
    ensures read { entry_said result ≡ entry_read bytes.now offset }
    ensures behind { IfOk result (λ read. offset < read.next) }
{
    let heading = read_heading(bytes, offset)?;
    if header_is_bad(bytes, offset, heading.fields) {
        return Err(ResFault::Header);
    }
    let data_size = u32_in(bytes, offset) as usize;
    let data_place = offset + u32_in(bytes, offset + 4) as usize;
    if data_place + data_size > bytes.len() {
        return Err(ResFault::Data);
    }
    Ok(EntryRead {
        resource: Resource {
            kind: heading.kind,
            name: heading.name,
            language: u16_in(bytes, heading.fields + 6),
            body: slice_in(bytes, data_place, data_size),
        },
        next: aligned(data_place + data_size),
    })
}
