//! Names and numbers as a printed line shows them.

ghost use Rattle.std.specs.Prelude.{◌≡◌, ◌++◌, ◌<◌, ◌↔◌, IsTrue, OnOk, ◌∷◌, []};
ghost use Rattle.std.specs.Fmt.{decimal, signed_decimal};
ghost use Rattle.std.specs.List.{flat_map};
ghost use Rattle.link_base.specs.NameText.{import_prefix_of};
ghost use Rattle.diagnostics.specs.LineText.{hex_digit, prints_plain, escaped_byte, escaped, address_text, unit_prints_plain, escaped_unit, text_units, resource_text};

use link_base::{Memory, Name, ResName, u16_in};
use std::alloc::Global;

/// Appends the name, with each byte that is no visible ASCII character escaped.
pub fn push_escaped(line: &mut Vec<u8>, name: &Name<'_>) -> Result<(), Memory>
    ensures { OnOk result (line.new.items ≡ line.old.items ++ escaped name.now) }
{
    line.extend_from_slice(name.prefix())?;
    push_escaped_bytes(line, name.rest())
}

fn push_escaped_bytes(line: &mut Vec<u8>, text: &[u8]) -> Result<(), Memory>
    ensures { OnOk result (line.new.items ≡ line.old.items ++ escaped text.now) }
{
    for byte in text {
        push_escaped_byte(line, *byte)?;
    }
    Ok(())
}

fn push_escaped_byte(line: &mut Vec<u8>, byte: u8) -> Result<(), Memory>
    ensures { OnOk result (line.new.items ≡ line.old.items ++ escaped_byte byte) }
{
    if prints_as_itself(byte) {
        line.push(byte)?;
    } else {
        line.extend_from_slice(&[b'\\', b'x', digit_of(byte / 16), digit_of(byte % 16)])?;
    }
    Ok(())
}

fn prints_as_itself(byte: u8) -> bool
    ensures { result ≡ prints_plain byte }
{
    byte >= 0x21 && byte <= 0x7e && byte != b'\\'
}

/// An upper-case hexadecimal digit.
fn digit_of(value: u8) -> u8
    requires { value < 16 }
    ensures { result ≡ hex_digit value }
{
    if value < 10 {
        b'0' + value
    } else {
        b'A' - 10 + value
    }
}

/// Appends the number in decimal.
pub fn push_number(alloc: Global, line: &mut Vec<u8>, number: u64) -> Result<(), Memory>
    ensures { OnOk result (line.new.items ≡ line.old.items ++ decimal number) }
{
    let text = number.to_string(alloc)?;
    line.extend_from_slice(text.as_bytes())?;
    Ok(())
}

/// Appends the number in decimal, with a sign where it is negative.
pub(crate) fn push_signed(alloc: Global, line: &mut Vec<u8>, number: i128) -> Result<(), Memory>
    ensures { OnOk result (line.new.items ≡ line.old.items ++ signed_decimal number) }
{
    let text = number.to_string(alloc)?;
    line.extend_from_slice(text.as_bytes())?;
    Ok(())
}

/// Appends an address in sixteen upper-case hexadecimal digits.
pub fn push_hex_address(alloc: Global, line: &mut Vec<u8>, address: u64) -> Result<(), Memory>
    ensures { OnOk result (line.new.items ≡ line.old.items ++ address_text address) }
{
    let digits = hex::encode_upper(alloc, address.to_be_bytes())?;
    line.extend_from_slice(digits.as_bytes())?;
    Ok(())
}

/// Appends the type or the name of a resource: a number after `#`, or a text with each unit that is no visible ASCII
/// character escaped.
pub(crate) fn push_resource_name(
    alloc: Global,
    line: &mut Vec<u8>,
    name: &ResName<'_>,
) -> Result<(), Memory>
    ensures { OnOk result (line.new.items ≡ line.old.items ++ resource_text name.now) }
{
    match name {
        ResName::Number(number) => {
            line.push(b'#')?;
            push_number(alloc, line, u64::from(*number))
        }
        ResName::Text(text) => push_units(alloc, line, text),
    }
}

fn push_units(alloc: Global, line: &mut Vec<u8>, text: &[u8]) -> Result<(), Memory>
    ensures { OnOk result (line.new.items ≡ line.old.items ++ flat_map escaped_unit (text_units text.now)) }
{
    for index in 0..text.len() / 2 {
        push_unit(alloc, line, u16_in(text, 2 * index))?;
    }
    Ok(())
}

fn push_unit(alloc: Global, line: &mut Vec<u8>, unit: u16) -> Result<(), Memory>
    ensures { OnOk result (line.new.items ≡ line.old.items ++ escaped_unit unit) }
{
    if unit_prints_as_itself(unit) {
        line.push(unit as u8)?;
        return Ok(());
    }
    let digits = hex::encode_upper(alloc, unit.to_be_bytes())?;
    line.extend_from_slice(b"\\u")?;
    line.extend_from_slice(digits.as_bytes())?;
    Ok(())
}

fn unit_prints_as_itself(unit: u16) -> bool
    ensures { result ≡ unit_prints_plain unit }
{
    unit >= 0x21 && unit <= 0x7e && unit != 0x23 && unit != 0x5c
}
