//! A line of a map: a word and fields, each after one blank.

ghost use Rattle.std.specs.Prelude.{◌≡◌, ◌++◌, OnOk};
ghost use Rattle.std.specs.List.{flat_map};
ghost use Rattle.map_file.specs.MapText.{field_text, blank_and_field, hexadecimal, line_text};

use diagnostics::{push_escaped, push_hex_address, push_number};
use link_base::{Memory, Name};
use std::alloc::Global;

/// A field, as it prints.
#[derive(Drop)]
pub(crate) enum Field<'a> {
    /// A number in decimal.
    Decimal(u64),
    /// An RVA, a size or flags, in eight upper-case hexadecimal digits.
    Hexadecimal(u32),
    /// An address, in sixteen of them.
    Address(u64),
    /// A name, escaped.
    Text(Name<'a>),
    /// A file and, after a colon, the member of it, both escaped.
    Member(Name<'a>, Name<'a>),
}

/// Appends a line.
pub(crate) fn push_line(
    alloc: Global,
    out: &mut Vec<u8>,
    word: &[u8],
    fields: &[Field<'_>],
) -> Result<(), Memory>
    ensures { OnOk result (out.new.items ≡ out.old.items ++ line_text word.now fields.now) }
{
    out.extend_from_slice(word)?;
    push_fields(alloc, out, fields)?;
    out.push(b'\n')?;
    Ok(())
}

fn push_fields(alloc: Global, out: &mut Vec<u8>, fields: &[Field<'_>]) -> Result<(), Memory>
    ensures { OnOk result (out.new.items ≡ out.old.items ++ flat_map blank_and_field fields.now) }
{
    for field in fields {
        out.push(b' ')?;
        push_field(alloc, out, field)?;
    }
    Ok(())
}

fn push_field(alloc: Global, out: &mut Vec<u8>, field: &Field<'_>) -> Result<(), Memory>
    ensures { OnOk result (out.new.items ≡ out.old.items ++ field_text field.now) }
{
    match field {
        Field::Decimal(number) => push_number(alloc, out, *number),
        Field::Hexadecimal(number) => push_hexadecimal(alloc, out, *number),
        Field::Address(address) => push_hex_address(alloc, out, *address),
        Field::Text(name) => push_escaped(out, name),
        Field::Member(file, member) => {
            push_escaped(out, file)?;
            out.push(b':')?;
            push_escaped(out, member)
        }
    }
}

fn push_hexadecimal(alloc: Global, out: &mut Vec<u8>, number: u32) -> Result<(), Memory>
    ensures { OnOk result (out.new.items ≡ out.old.items ++ hexadecimal number) }
{
    let digits = hex::encode_upper(alloc, number.to_be_bytes())?;
    out.extend_from_slice(digits.as_bytes())?;
    Ok(())
}
