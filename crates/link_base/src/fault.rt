//! The diagnostics of a link: what is wrong with the words or the files.

use crate::kinds::{
    ExportFault, ImageKind, ImpFault, Kind, LibFault, ObjFault, PdbKind, RelocKind, ResFault,
    ResName, TargetFault,
};
use crate::name::Name;

/// A refusal of the input. Its number and name, and its operands in their order, stand in `docs/FAULTS.md`.
/// A file operand is a file and, where the fault lies in a library, the member of it. A module operand is a
/// position in the order of joining, or none for the command line.
#[derive(Drop)]
pub enum Fault<'a> {
    /// No file of this name is there.
    NotFound {
        file: Name<'a>,
        member: Option<Name<'a>>,
    },
    /// The file has more bytes than the linker reads.
    FileTooLarge {
        file: Name<'a>,
        member: Option<Name<'a>>,
    },
    /// The inputs have more bytes together, or more modules, than the linker takes.
    InputLimit {
        sum: u64,
    },
    /// The object is malformed.
    BadObject {
        file: Name<'a>,
        member: Option<Name<'a>>,
        kind: ObjFault,
        index: u32,
    },
    /// The library is malformed.
    BadLibrary {
        file: Name<'a>,
        member: Option<Name<'a>>,
        kind: LibFault,
        at: u32,
    },
    /// The short import is malformed.
    BadImport {
        file: Name<'a>,
        member: Option<Name<'a>>,
        kind: ImpFault,
    },
    /// The directives of a module are malformed, at this offset of their section.
    BadDirective {
        file: Name<'a>,
        member: Option<Name<'a>>,
        at: usize,
    },
    /// The file has a form that the linker does not take.
    Unsupported {
        file: Name<'a>,
        member: Option<Name<'a>>,
        kind: Kind,
    },
    /// Two directives give one key different values.
    Mismatch {
        key: Name<'a>,
        first: Name<'a>,
        second: Name<'a>,
    },
    /// Two modules define one name.
    Duplicate {
        name: Name<'a>,
        first: Option<u32>,
        second: Option<u32>,
    },
    /// The COMDAT sections of a name contradict one another.
    ComdatConflict {
        name: Name<'a>,
        first: Option<u32>,
        second: Option<u32>,
    },
    /// Nothing defines the name.
    Undefined {
        name: Name<'a>,
        module: Option<u32>,
    },
    /// What the name means leads back to a name on the way.
    WeakCycle {
        name: Name<'a>,
        module: Option<u32>,
    },
    /// A reference's target has no address that it can use.
    BadTarget {
        kind: TargetFault,
        module: Option<u32>,
        section: u32,
        relocation: u32,
    },
    /// The relocation is malformed.
    BadReloc {
        kind: RelocKind,
        module: Option<u32>,
        section: u32,
        relocation: u32,
    },
    /// A part of the exception table is no list of its rows.
    BadPdata {
        module: Option<u32>,
        section: u32,
    },
    /// The export cannot be made.
    BadExport {
        kind: ExportFault,
        name: Name<'a>,
    },
    /// A merge of section names contradicts another, leads in a circle, or names a section that is never merged.
    BadMerge {
        name: Name<'a>,
    },
    /// The image would have more sections than the format allows.
    TooManySections {
        count: u32,
    },
    /// The image would be larger than the linker makes.
    ImageTooLarge {
        size: u64,
    },
    /// The image may not stand at the base that it prefers.
    BaseRange {
        base: u64,
    },
    /// The value of a field leaves its range.
    RelocRange {
        module: Option<u32>,
        section: u32,
        relocation: u32,
        value: i128,
    },
    /// The program database would be larger than the linker makes.
    PdbTooLarge {
        size: u64,
    },
    /// The resource file is malformed, at this offset.
    BadResource {
        file: Name<'a>,
        member: Option<Name<'a>>,
        kind: ResFault,
        at: u32,
    },
    /// Two resources have one type, name and language.
    DuplicateResource {
        file: Name<'a>,
        member: Option<Name<'a>>,
        kind: ResName<'a>,
        name: ResName<'a>,
        language: u16,
    },
    /// There are more resources than the linker takes.
    TooManyResources {
        count: u32,
    },
    /// The import library would be larger than the linker makes.
    ImplibTooLarge {
        size: u64,
    },
    /// The image cannot be loaded.
    BadImage {
        kind: ImageKind,
    },
    /// The program database cannot be read.
    BadPdb {
        kind: PdbKind,
    },
    /// The image may not be loaded at the base.
    BasePermit {
        base: u64,
    },
    /// The program database has no public symbol of this name.
    NoSymbol {
        name: Name<'a>,
    },
    /// The bytes would end at this RVA, which is behind the end of the image.
    LengthRange {
        end: u64,
    },
}
