//! A type or a name in a resource file: a number, or a text up to its zero unit (Windows, "RESOURCEHEADER").

ghost use Rattle.std.specs.Prelude.{◌≡◌, ◌≤◌, ◌<◌, ◌+◌, ◌*◌, ◌^◌, length, IfSome, IfOk};
ghost use Rattle.res_merge.specs.ResourceFile.{text_units, text_fault, number_read, name_read};
ghost use Rattle.res_merge.specs.Read.{name_said};

use link_base::{ResFault, ResName, field_u16, slice_in, u16_in};

/// What stands before a number.
const NUMBER_MARK: u16 = 0xffff;

/// A text has fewer units.
const UNIT_END: usize = 32001;

/// A type or a name, and where it ends.
#[derive(Drop)]
pub(crate) struct NameRead<'a> {
    pub(crate) name: ResName<'a>,
    pub(crate) behind: usize,
}

/// The type or the name at an offset.
#[tactic(auto, unfolding(crate::specs::ResourceFile::name_read))]
pub(crate) fn name_read(bytes: &[u8], offset: usize) -> Result<NameRead<'_>, ResFault>
    requires { offset < 2 ^ 40 }
    ensures read { name_said result ≡ name_read bytes.now offset }
    ensures inside { IfOk result (λ read. read.behind ≤ length bytes.now) }
    ensures behind { IfOk result (λ read. offset < read.behind) }
{
    let Some(first) = field_u16(bytes, offset) else {
        return Err(ResFault::Header);
    };
    if first == NUMBER_MARK {
        return number_read(bytes, offset);
    }
    match text_units(bytes, offset) {
        Some(units) => Ok(NameRead {
            name: ResName::Text(slice_in(bytes, offset, 2 * units)),
            behind: offset + 2 * units + 2,
        }),
        None => Err(text_fault(bytes, offset)),
    }
}

fn number_read(bytes: &[u8], offset: usize) -> Result<NameRead<'_>, ResFault>
    requires { offset + 2 ≤ length bytes.now }
    ensures read { name_said result ≡ number_read bytes.now offset }
    ensures inside { IfOk result (λ read. read.behind ≤ length bytes.now) }
    ensures behind { IfOk result (λ read. offset < read.behind) }
{
    match field_u16(bytes, offset + 2) {
        Some(number) => Ok(NameRead {
            name: ResName::Number(number),
            behind: offset + 4,
        }),
        None => Err(ResFault::Header),
    }
}

/// How many units a text has, where its zero unit is there and not too late.
#[tactic(auto, unfolding(crate::specs::ResourceFile::text_units))]
fn text_units(bytes: &[u8], offset: usize) -> Option<usize>
    requires { offset + 2 ≤ length bytes.now }
    ensures units { result ≡ text_units bytes.now offset }
    ensures inside { IfSome result (λ units. offset + 2 * units + 2 ≤ length bytes.now) }
{
    let count = UNIT_END.min((bytes.len() - offset) / 2);
    for k in 0..count {
        if u16_in(bytes, offset + 2 * k) == 0 {
            return Some(k);
        }
    }
    None
}

/// What is wrong with a text that does not end.
fn text_fault(bytes: &[u8], offset: usize) -> ResFault
    requires { offset + 2 ≤ length bytes.now }
    ensures { result ≡ text_fault bytes.now offset }
{
    if bytes.len() - offset >= 2 * UNIT_END {
        ResFault::Name
    } else {
        ResFault::Header
    }
}
