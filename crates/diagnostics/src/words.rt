//! The word for each kind of refusal.

ghost use Rattle.std.specs.Prelude.{◌≡◌};
ghost use Rattle.diagnostics.specs.KindWord.{object_fault_word, library_fault_word, import_fault_word, kind_word, target_fault_word, relocation_fault_word, export_fault_word, image_fault_word, database_fault_word, resource_fault_word};

use link_base::{
    ExportFault, ImageKind, ImpFault, Kind, LibFault, ObjFault, PdbKind, RelocKind, ResFault,
    TargetFault,
};

/// The word that names what is wrong with an object.
pub(crate) fn object_fault_word(kind: ObjFault) -> &'static [u8]
    ensures { result.now ≡ object_fault_word kind }
{
    match kind {
        ObjFault::Truncated => b"Truncated",
        ObjFault::Machine => b"Machine",
        ObjFault::SectionRange => b"SectionRange",
        ObjFault::RelocationRange => b"RelocationRange",
        ObjFault::SymbolRange => b"SymbolRange",
        ObjFault::StringTable => b"StringTable",
        ObjFault::Alignment => b"Alignment",
        ObjFault::SectionNumber => b"SectionNumber",
        ObjFault::SymbolValue => b"SymbolValue",
        ObjFault::Aux => b"Aux",
        ObjFault::Selection => b"Selection",
        ObjFault::Associative => b"Associative",
    }
}

/// The word that names what is wrong with a library.
pub(crate) fn library_fault_word(kind: LibFault) -> &'static [u8]
    ensures { result.now ≡ library_fault_word kind }
{
    match kind {
        LibFault::Magic => b"Magic",
        LibFault::Header => b"Header",
        LibFault::Size => b"Size",
        LibFault::Directory => b"Directory",
        LibFault::LongName => b"LongName",
    }
}

/// The word that names what is wrong with a short import.
pub(crate) fn import_fault_word(kind: ImpFault) -> &'static [u8]
    ensures { result.now ≡ import_fault_word kind }
{
    match kind {
        ImpFault::Length => b"Length",
        ImpFault::Machine => b"Machine",
        ImpFault::Kind => b"Kind",
        ImpFault::NameType => b"NameType",
        ImpFault::Text => b"Text",
    }
}

/// The word that names a form of input.
pub(crate) fn kind_word(kind: Kind) -> &'static [u8]
    ensures { result.now ≡ kind_word kind }
{
    match kind {
        Kind::ThinLibrary => b"ThinLibrary",
        Kind::Bitcode => b"Bitcode",
        Kind::Image => b"Image",
        Kind::Resource => b"Resource",
        Kind::Anonymous => b"Anonymous",
        Kind::LinkerSection => b"LinkerSection",
        Kind::LongName => b"LongName",
        Kind::SecondResource => b"SecondResource",
    }
}

/// The word that names why a target cannot be used.
pub(crate) fn target_fault_word(kind: TargetFault) -> &'static [u8]
    ensures { result.now ≡ target_fault_word kind }
{
    match kind {
        TargetFault::Local => b"Local",
        TargetFault::Discarded => b"Discarded",
        TargetFault::Unplaced => b"Unplaced",
        TargetFault::AbsRelative => b"AbsRelative",
        TargetFault::NoSection => b"NoSection",
        TargetFault::NeedsLow => b"NeedsLow",
        TargetFault::PdataField => b"PdataField",
    }
}

/// The word that names what is wrong with a relocation.
pub(crate) fn relocation_fault_word(kind: RelocKind) -> &'static [u8]
    ensures { result.now ≡ relocation_fault_word kind }
{
    match kind {
        RelocKind::Kind => b"Kind",
        RelocKind::Field => b"Field",
        RelocKind::Index => b"Index",
        RelocKind::Overlap => b"Overlap",
    }
}

/// The word that names what is wrong with an export.
pub(crate) fn export_fault_word(kind: ExportFault) -> &'static [u8]
    ensures { result.now ≡ export_fault_word kind }
{
    match kind {
        ExportFault::ZeroOrdinal => b"ZeroOrdinal",
        ExportFault::TwoNames => b"TwoNames",
        ExportFault::TwoOrdinals => b"TwoOrdinals",
        ExportFault::TooMany => b"TooMany",
        ExportFault::Absolute => b"Absolute",
        ExportFault::InTable => b"InTable",
    }
}

/// The word that names what is wrong with an image.
pub(crate) fn image_fault_word(kind: ImageKind) -> &'static [u8]
    ensures { result.now ≡ image_fault_word kind }
{
    match kind {
        ImageKind::Dos => b"Dos",
        ImageKind::Signature => b"Signature",
        ImageKind::Machine => b"Machine",
        ImageKind::OptionalSize => b"OptionalSize",
        ImageKind::Magic => b"Magic",
        ImageKind::Alignment => b"Alignment",
        ImageKind::Directories => b"Directories",
        ImageKind::ImageSize => b"ImageSize",
        ImageKind::Headers => b"Headers",
        ImageKind::Sections => b"Sections",
        ImageKind::Raw => b"Raw",
        ImageKind::Blocks => b"Blocks",
    }
}

/// The word that names what is wrong with a program database.
pub(crate) fn database_fault_word(kind: PdbKind) -> &'static [u8]
    ensures { result.now ≡ database_fault_word kind }
{
    match kind {
        PdbKind::Superblock => b"Superblock",
        PdbKind::Blocks => b"Blocks",
        PdbKind::Directory => b"Directory",
        PdbKind::Header => b"Header",
        PdbKind::Hash => b"Hash",
    }
}

/// The word that names what is wrong with an entry of a resource file.
pub(crate) fn resource_fault_word(kind: ResFault) -> &'static [u8]
    ensures { result.now ≡ resource_fault_word kind }
{
    match kind {
        ResFault::Header => b"Header",
        ResFault::Name => b"Name",
        ResFault::Data => b"Data",
    }
}
