//! The operands of a diagnostic, each after one blank.

ghost use Rattle.std.specs.Prelude.{◌≡◌, ◌++◌, OnOk};
ghost use Rattle.std.specs.Fmt.{decimal, signed_decimal};
ghost use Rattle.diagnostics.specs.LineText.{operand, escaped, file_text, module_text, address_text, resource_text, place_operands};

use crate::line::{push_escaped, push_hex_address, push_number, push_resource_name, push_signed};
use link_base::{Memory, Name, ResName};
use std::alloc::Global;

pub(crate) fn push_word(line: &mut Vec<u8>, word: &[u8]) -> Result<(), Memory>
    ensures { OnOk result (line.new.items ≡ line.old.items ++ operand word.now) }
{
    line.push(b' ')?;
    line.extend_from_slice(word)?;
    Ok(())
}

pub(crate) fn push_name(line: &mut Vec<u8>, name: &Name<'_>) -> Result<(), Memory>
    ensures { OnOk result (line.new.items ≡ line.old.items ++ operand (escaped name.now)) }
{
    line.push(b' ')?;
    push_escaped(line, name)
}

pub(crate) fn push_names(
    line: &mut Vec<u8>,
    key: &Name<'_>,
    first: &Name<'_>,
    second: &Name<'_>,
) -> Result<(), Memory>
    ensures { OnOk result (line.new.items ≡ line.old.items
        ++ (operand (escaped key.now) ++ (operand (escaped first.now) ++ operand (escaped second.now)))) }
{
    push_name(line, key)?;
    push_name(line, first)?;
    push_name(line, second)
}

pub(crate) fn push_word_and_name(
    line: &mut Vec<u8>,
    word: &[u8],
    name: &Name<'_>,
) -> Result<(), Memory>
    ensures { OnOk result (line.new.items ≡ line.old.items ++ (operand word.now ++ operand (escaped name.now))) }
{
    push_word(line, word)?;
    push_name(line, name)
}

/// A file and, where the fault lies in a library, a colon and the member.
pub(crate) fn push_file(
    line: &mut Vec<u8>,
    file: &Name<'_>,
    member: &Option<Name<'_>>,
) -> Result<(), Memory>
    ensures { OnOk result (line.new.items ≡ line.old.items ++ operand (file_text file.now member.now)) }
{
    line.push(b' ')?;
    push_escaped(line, file)?;
    if let Some(member) = member {
        line.push(b':')?;
        push_escaped(line, member)?;
    }
    Ok(())
}

pub(crate) fn push_file_and_word(
    line: &mut Vec<u8>,
    file: &Name<'_>,
    member: &Option<Name<'_>>,
    word: &[u8],
) -> Result<(), Memory>
    ensures { OnOk result (line.new.items ≡ line.old.items ++ (operand (file_text file.now member.now) ++ operand word.now)) }
{
    push_file(line, file, member)?;
    push_word(line, word)
}

pub(crate) fn push_file_and_place(
    alloc: Global,
    line: &mut Vec<u8>,
    file: &Name<'_>,
    member: &Option<Name<'_>>,
    place: usize,
) -> Result<(), Memory>
    ensures { OnOk result (line.new.items ≡ line.old.items ++ (operand (file_text file.now member.now) ++ operand (decimal place))) }
{
    push_file(line, file, member)?;
    push_count(alloc, line, place as u64)
}

pub(crate) fn push_file_word_and_place(
    alloc: Global,
    line: &mut Vec<u8>,
    file: &Name<'_>,
    member: &Option<Name<'_>>,
    word: &[u8],
    place: u32,
) -> Result<(), Memory>
    ensures { OnOk result (line.new.items ≡ line.old.items
        ++ (operand (file_text file.now member.now) ++ (operand word.now ++ operand (decimal place)))) }
{
    push_file(line, file, member)?;
    push_word(line, word)?;
    push_count(alloc, line, u64::from(place))
}

/// A file, and the type, the name and the language of a resource.
pub(crate) fn push_file_and_resource(
    alloc: Global,
    line: &mut Vec<u8>,
    file: &Name<'_>,
    member: &Option<Name<'_>>,
    kind: &ResName<'_>,
    name: &ResName<'_>,
    language: u16,
) -> Result<(), Memory>
    ensures { OnOk result (line.new.items ≡ line.old.items
        ++ (operand (file_text file.now member.now)
        ++ (operand (resource_text kind.now) ++ (operand (resource_text name.now) ++ operand (decimal language))))) }
{
    push_file(line, file, member)?;
    push_resource(alloc, line, kind)?;
    push_resource(alloc, line, name)?;
    push_count(alloc, line, u64::from(language))
}

fn push_resource(alloc: Global, line: &mut Vec<u8>, name: &ResName<'_>) -> Result<(), Memory>
    ensures { OnOk result (line.new.items ≡ line.old.items ++ operand (resource_text name.now)) }
{
    line.push(b' ')?;
    push_resource_name(alloc, line, name)
}

/// A module by its position, or a dash for the command line.
pub(crate) fn push_module(
    alloc: Global,
    line: &mut Vec<u8>,
    position: Option<u32>,
) -> Result<(), Memory>
    ensures { OnOk result (line.new.items ≡ line.old.items ++ operand (module_text position)) }
{
    line.push(b' ')?;
    match position {
        None => {
            line.push(b'-')?;
            Ok(())
        }
        Some(position) => push_number(alloc, line, u64::from(position)),
    }
}

pub(crate) fn push_name_and_module(
    alloc: Global,
    line: &mut Vec<u8>,
    name: &Name<'_>,
    position: Option<u32>,
) -> Result<(), Memory>
    ensures { OnOk result (line.new.items ≡ line.old.items ++ (operand (escaped name.now) ++ operand (module_text position))) }
{
    push_name(line, name)?;
    push_module(alloc, line, position)
}

pub(crate) fn push_name_and_modules(
    alloc: Global,
    line: &mut Vec<u8>,
    name: &Name<'_>,
    first: Option<u32>,
    second: Option<u32>,
) -> Result<(), Memory>
    ensures { OnOk result (line.new.items ≡ line.old.items
        ++ (operand (escaped name.now) ++ (operand (module_text first) ++ operand (module_text second)))) }
{
    push_name(line, name)?;
    push_module(alloc, line, first)?;
    push_module(alloc, line, second)
}

pub(crate) fn push_module_and_section(
    alloc: Global,
    line: &mut Vec<u8>,
    position: Option<u32>,
    section: u32,
) -> Result<(), Memory>
    ensures { OnOk result (line.new.items ≡ line.old.items ++ (operand (module_text position) ++ operand (decimal section))) }
{
    push_module(alloc, line, position)?;
    push_count(alloc, line, u64::from(section))
}

/// A relocation, by its module, its section and its index in the section.
fn push_place(
    alloc: Global,
    line: &mut Vec<u8>,
    position: Option<u32>,
    section: u32,
    relocation: u32,
) -> Result<(), Memory>
    ensures { OnOk result (line.new.items ≡ line.old.items ++ place_operands position section relocation) }
{
    push_module(alloc, line, position)?;
    push_count(alloc, line, u64::from(section))?;
    push_count(alloc, line, u64::from(relocation))
}

pub(crate) fn push_word_and_place(
    alloc: Global,
    line: &mut Vec<u8>,
    word: &[u8],
    position: Option<u32>,
    section: u32,
    relocation: u32,
) -> Result<(), Memory>
    ensures { OnOk result (line.new.items ≡ line.old.items ++ (operand word.now ++ place_operands position section relocation)) }
{
    push_word(line, word)?;
    push_place(alloc, line, position, section, relocation)
}

/// A relocation and the value that its field would have.
pub(crate) fn push_place_and_value(
    alloc: Global,
    line: &mut Vec<u8>,
    position: Option<u32>,
    section: u32,
    relocation: u32,
    value: i128,
) -> Result<(), Memory>
    ensures { OnOk result (line.new.items ≡ line.old.items
        ++ (place_operands position section relocation ++ operand (signed_decimal value))) }
{
    push_place(alloc, line, position, section, relocation)?;
    line.push(b' ')?;
    push_signed(alloc, line, value)
}

pub(crate) fn push_count(alloc: Global, line: &mut Vec<u8>, count: u64) -> Result<(), Memory>
    ensures { OnOk result (line.new.items ≡ line.old.items ++ operand (decimal count)) }
{
    line.push(b' ')?;
    push_number(alloc, line, count)
}

/// An address in sixteen digits.
pub(crate) fn push_address(alloc: Global, line: &mut Vec<u8>, address: u64) -> Result<(), Memory>
    ensures { OnOk result (line.new.items ≡ line.old.items ++ operand (address_text address)) }
{
    line.push(b' ')?;
    push_hex_address(alloc, line, address)
}
