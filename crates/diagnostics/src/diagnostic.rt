//! The line that says what is wrong: `fault`, a number, a name, and the operands of the refusal.

ghost use Rattle.std.specs.Prelude.{◌≡◌, ◌++◌, IfOk, OnOk};
ghost use Rattle.diagnostics.specs.FaultLine.{fault_head, fault_operands, fault_line_text};

use crate::operands::{
    push_address, push_count, push_file, push_file_and_place, push_file_and_resource,
    push_file_and_word, push_file_word_and_place, push_module_and_section, push_name,
    push_name_and_module, push_name_and_modules, push_names, push_place_and_value, push_word,
    push_word_and_name, push_word_and_place,
};
use crate::words::{
    database_fault_word, export_fault_word, image_fault_word, import_fault_word, kind_word,
    library_fault_word, object_fault_word, relocation_fault_word, resource_fault_word,
    target_fault_word,
};
use link_base::{Fault, Memory};
use std::alloc::Global;

/// The line that a diagnostic prints, with its newline.
pub fn fault_line(alloc: Global, fault: &Fault<'_>) -> Result<Vec<u8>, Memory>
    ensures { IfOk result (λ line. line.items ≡ fault_line_text fault.now) }
{
    let mut line = Vec::new(alloc);
    line.extend_from_slice(head_of(fault))?;
    push_operands(alloc, &mut line, fault)?;
    line.push(b'\n')?;
    Ok(line)
}

/// The word `fault`, the number and the name.
fn head_of(fault: &Fault<'_>) -> &'static [u8]
    ensures { result.now ≡ fault_head fault.now }
{
    match fault {
        Fault::NotFound { .. } => b"fault 2 NotFound",
        Fault::FileTooLarge { .. } => b"fault 3 FileTooLarge",
        Fault::InputLimit { .. } => b"fault 4 InputLimit",
        Fault::BadObject { .. } => b"fault 5 BadObject",
        Fault::BadLibrary { .. } => b"fault 6 BadLibrary",
        Fault::BadImport { .. } => b"fault 7 BadImport",
        Fault::BadDirective { .. } => b"fault 8 BadDirective",
        Fault::Unsupported { .. } => b"fault 9 Unsupported",
        Fault::Mismatch { .. } => b"fault 10 Mismatch",
        Fault::Duplicate { .. } => b"fault 11 Duplicate",
        Fault::ComdatConflict { .. } => b"fault 12 ComdatConflict",
        Fault::Undefined { .. } => b"fault 13 Undefined",
        Fault::WeakCycle { .. } => b"fault 14 WeakCycle",
        Fault::BadTarget { .. } => b"fault 15 BadTarget",
        Fault::BadReloc { .. } => b"fault 16 BadReloc",
        Fault::BadPdata { .. } => b"fault 17 BadPdata",
        Fault::BadExport { .. } => b"fault 18 BadExport",
        Fault::BadMerge { .. } => b"fault 19 BadMerge",
        Fault::TooManySections { .. } => b"fault 20 TooManySections",
        Fault::ImageTooLarge { .. } => b"fault 21 ImageTooLarge",
        Fault::BaseRange { .. } => b"fault 22 BaseRange",
        Fault::RelocRange { .. } => b"fault 23 RelocRange",
        Fault::PdbTooLarge { .. } => b"fault 24 PdbTooLarge",
        Fault::BadResource { .. } => b"fault 25 BadResource",
        Fault::DuplicateResource { .. } => b"fault 26 DuplicateResource",
        Fault::TooManyResources { .. } => b"fault 27 TooManyResources",
        Fault::ImplibTooLarge { .. } => b"fault 28 ImplibTooLarge",
        Fault::BadImage { .. } => b"fault 30 BadImage",
        Fault::BadPdb { .. } => b"fault 31 BadPdb",
        Fault::BasePermit { .. } => b"fault 32 BasePermit",
        Fault::NoSymbol { .. } => b"fault 33 NoSymbol",
        Fault::LengthRange { .. } => b"fault 34 LengthRange",
    }
}

fn push_operands(alloc: Global, line: &mut Vec<u8>, fault: &Fault<'_>) -> Result<(), Memory>
    ensures { OnOk result (line.new.items ≡ line.old.items ++ fault_operands fault.now) }
{
    match fault {
        Fault::NotFound { file, member } => push_file(line, file, member),
        Fault::FileTooLarge { file, member } => push_file(line, file, member),
        Fault::InputLimit { sum } => push_count(alloc, line, *sum),
        Fault::BadObject {
            file,
            member,
            kind,
            index,
        } => push_file_word_and_place(alloc, line, file, member, object_fault_word(*kind), *index),
        Fault::BadLibrary {
            file,
            member,
            kind,
            at,
        } => push_file_word_and_place(alloc, line, file, member, library_fault_word(*kind), *at),
        Fault::BadImport { file, member, kind } => push_file_and_word(
            line,
            file,
            member,
            import_fault_word(*kind),
        ),
        Fault::BadDirective { file, member, at } => push_file_and_place(
            alloc, line, file, member, *at,
        ),
        Fault::Unsupported { file, member, kind } => push_file_and_word(
            line,
            file,
            member,
            kind_word(*kind),
        ),
        Fault::Mismatch { key, first, second } => push_names(line, key, first, second),
        Fault::Duplicate {
            name,
            first,
            second,
        } => push_name_and_modules(alloc, line, name, *first, *second),
        Fault::ComdatConflict {
            name,
            first,
            second,
        } => push_name_and_modules(alloc, line, name, *first, *second),
        Fault::Undefined { name, module } => push_name_and_module(alloc, line, name, *module),
        Fault::WeakCycle { name, module } => push_name_and_module(alloc, line, name, *module),
        Fault::BadTarget {
            kind,
            module,
            section,
            relocation,
        } => push_word_and_place(
            alloc,
            line,
            target_fault_word(*kind),
            *module,
            *section,
            *relocation,
        ),
        Fault::BadReloc {
            kind,
            module,
            section,
            relocation,
        } => push_word_and_place(
            alloc,
            line,
            relocation_fault_word(*kind),
            *module,
            *section,
            *relocation,
        ),
        Fault::BadPdata { module, section } => push_module_and_section(
            alloc, line, *module, *section,
        ),
        Fault::BadExport { kind, name } => push_word_and_name(line, export_fault_word(*kind), name),
        Fault::BadMerge { name } => push_name(line, name),
        Fault::TooManySections { count } => push_count(alloc, line, u64::from(*count)),
        Fault::ImageTooLarge { size } => push_count(alloc, line, *size),
        Fault::BaseRange { base } => push_address(alloc, line, *base),
        Fault::RelocRange {
            module,
            section,
            relocation,
            value,
        } => push_place_and_value(alloc, line, *module, *section, *relocation, *value),
        Fault::PdbTooLarge { size } => push_count(alloc, line, *size),
        Fault::BadResource {
            file,
            member,
            kind,
            at,
        } => push_file_word_and_place(alloc, line, file, member, resource_fault_word(*kind), *at),
        Fault::DuplicateResource {
            file,
            member,
            kind,
            name,
            language,
        } => push_file_and_resource(alloc, line, file, member, kind, name, *language),
        Fault::TooManyResources { count } => push_count(alloc, line, u64::from(*count)),
        Fault::ImplibTooLarge { size } => push_count(alloc, line, *size),
        Fault::BadImage { kind } => push_word(line, image_fault_word(*kind)),
        Fault::BadPdb { kind } => push_word(line, database_fault_word(*kind)),
        Fault::BasePermit { base } => push_address(alloc, line, *base),
        Fault::NoSymbol { name } => push_name(line, name),
        Fault::LengthRange { end } => push_count(alloc, line, *end),
    }
}
