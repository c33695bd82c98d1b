//! The bytes of an object, in the form of the PE Format's "COFF File Header (Object and Image)", "Section Table (Section
//! Headers)", "COFF Relocations (Object Only)", "COFF Symbol Table" and "COFF String Table".

ghost use Rattle.std.specs.Prelude.{◌≡◌, ◌<◌, ◌≤◌, ◌++◌, IfOk, OnOk};
ghost use Rattle.generated_world.specs.GeneratedObject.{file_header, section_header, code, relocation, short_name, symbol, generated_object};

use crate::names::numbered;
use link_base::pe_format::{
    FILE_MACHINE_AMD64, REL_AMD64_ADDR64, REL_AMD64_REL32, SYM_CLASS_EXTERNAL,
};
use link_base::{LeNumber, Memory, push_fields};
use std::alloc::Global;

/// The length of an object.
const OBJECT_SIZE: usize = 154;

/// The length of the code.
const CODE_SIZE: u32 = 16;

/// Where the code stands in the file: behind the header and the one section header.
const CODE_PLACE: u32 = 60;

/// Where the relocations stand.
const RELOCATION_PLACE: u32 = 76;

/// Where the symbol table stands.
const SYMBOL_PLACE: u32 = 96;

/// The flags of the section: code, of 16 bytes' alignment, that can be executed and read.
const TEXT_FLAGS: u32 = 0x6050_0020;

/// The type of a symbol that is a function (PE Format, "Type Representation").
const FUNCTION: u16 = 0x20;

/// The object with the function of this index.
#[tactic(auto, unfolding(crate::specs::GeneratedObject::generated_object))]
pub(crate) fn object_bytes(alloc: Global, count: u32, index: u32) -> Result<Vec<u8>, Memory>
    requires within { index < count }
    requires few { count ≤ 2000 }
    ensures { IfOk result (λ object. object.items ≡ generated_object count index) }
{
    let mut out = Vec::with_capacity(alloc, OBJECT_SIZE)?;
    push_file_header(&mut out)?;
    push_section_header(&mut out)?;
    push_code(&mut out)?;
    push_relocation(&mut out, 1, 1, REL_AMD64_REL32)?;
    push_relocation(&mut out, 8, 2, REL_AMD64_ADDR64)?;
    push_symbol(alloc, &mut out, index, 1)?;
    push_symbol(alloc, &mut out, (index + 1) % count, 0)?;
    push_symbol(alloc, &mut out, (7 * index + 3) % count, 0)?;
    push_fields(&mut out, &[LeNumber::U32(4)])?;
    Ok(out)
}

#[tactic(auto, unfolding(crate::specs::GeneratedObject::file_header))]
fn push_file_header(out: &mut Vec<u8>) -> Result<(), Memory>
    ensures { OnOk result (out.new.items ≡ out.old.items ++ file_header) }
{
    push_fields(
        out,
        &[
            LeNumber::U16(FILE_MACHINE_AMD64),
            LeNumber::U16(1),
            LeNumber::U32(0),
            LeNumber::U32(SYMBOL_PLACE),
            LeNumber::U32(3),
            LeNumber::U16(0),
            LeNumber::U16(0),
        ],
    )
}

#[tactic(auto, unfolding(crate::specs::GeneratedObject::section_header))]
fn push_section_header(out: &mut Vec<u8>) -> Result<(), Memory>
    ensures { OnOk result (out.new.items ≡ out.old.items ++ section_header) }
{
    push_short_name(out, ".text")?;
    push_fields(
        out,
        &[
            LeNumber::U32(0),
            LeNumber::U32(0),
            LeNumber::U32(CODE_SIZE),
            LeNumber::U32(CODE_PLACE),
            LeNumber::U32(RELOCATION_PLACE),
            LeNumber::U32(0),
            LeNumber::U16(2),
            LeNumber::U16(0),
            LeNumber::U32(TEXT_FLAGS),
        ],
    )
}

/// Appends `call`, `ret`, two times `nop`, and room for an address.
#[tactic(auto, unfolding(crate::specs::GeneratedObject::code))]
fn push_code(out: &mut Vec<u8>) -> Result<(), Memory>
    ensures { OnOk result (out.new.items ≡ out.old.items ++ code) }
{
    push_fields(
        out,
        &[
            LeNumber::U8(0xe8),
            LeNumber::U32(0),
            LeNumber::U8(0xc3),
            LeNumber::U8(0x90),
            LeNumber::U8(0x90),
            LeNumber::U64(0),
        ],
    )
}

#[tactic(auto, unfolding(crate::specs::GeneratedObject::relocation))]
fn push_relocation(
    out: &mut Vec<u8>,
    offset: u32,
    symbol_index: u32,
    kind: u16,
) -> Result<(), Memory>
    ensures { OnOk result (out.new.items ≡ out.old.items ++ relocation offset symbol_index kind) }
{
    push_fields(
        out,
        &[
            LeNumber::U32(offset),
            LeNumber::U32(symbol_index),
            LeNumber::U16(kind),
        ],
    )
}

/// Appends the record of a function, which a section of this number defines, or none where it is 0.
#[tactic(auto, unfolding(crate::specs::GeneratedObject::symbol))]
fn push_symbol(
    alloc: Global,
    out: &mut Vec<u8>,
    index: u32,
    section_number: u16,
) -> Result<(), Memory>
    ensures { OnOk result (out.new.items ≡ out.old.items ++ symbol index section_number) }
{
    let name = numbered(alloc, "f", index)?;
    push_short_name(out, name.as_str())?;
    push_fields(
        out,
        &[
            LeNumber::U32(0),
            LeNumber::U16(section_number),
            LeNumber::U16(FUNCTION),
            LeNumber::U8(SYM_CLASS_EXTERNAL),
            LeNumber::U8(0),
        ],
    )
}

/// Appends the first eight bytes of a name, with NULs behind a shorter one.
fn push_short_name(out: &mut Vec<u8>, name: &str) -> Result<(), Memory>
    ensures { OnOk result (out.new.items ≡ out.old.items ++ short_name name.now) }
{
    let start = out.len();
    out.extend_from_slice(name.as_bytes())?;
    out.resize(start + 8, 0)?;
    Ok(())
}
