//! The commands of the linker, and the options of a link.

use directives::Export;
use link_base::Name;

/// What a command line asks for.
#[derive(Drop)]
pub enum Command<'w> {
    /// `link WORDS`: link the inputs.
    Link(Options<'w>),
    /// `at IMAGE BASE RVA LENGTH`: load the image at the base, and show `length` bytes at the RVA.
    At {
        image: &'w str,
        base: u64,
        rva: u32,
        length: u32,
    },
    /// `show IMAGE PDB BASE SYMBOL LENGTH`: the same at the place of a public symbol.
    Show {
        image: &'w str,
        pdb: &'w str,
        base: u64,
        symbol: &'w str,
        length: u32,
    },
    /// `gen N`: link a generated program of N objects, in memory.
    Gen {
        n: u32,
    },
}

/// The options of a link, each with its default where no word says otherwise. Lists are in the order of the words.
#[derive(Drop)]
pub struct Options<'w> {
    /// The names of the input files, as the words have them.
    pub inputs: Vec<&'w str>,
    /// Where nothing defines the first name, it means what the second one means.
    pub alternates: Vec<(Name<'w>, Name<'w>)>,
    /// Sections of the first base name become part of the second one.
    pub merges: Vec<(Name<'w>, Name<'w>)>,
    /// Libraries to search after the inputs, by their file names.
    pub default_libs: Vec<&'w str>,
    /// Rows of the export table.
    pub exports: Vec<Export<'w>>,
    /// Names that the link refers to.
    pub includes: Vec<Name<'w>>,
    /// The address that the image is linked to.
    pub base: u64,
    /// Whether a PDB is written.
    pub debug: bool,
    /// Whether the image is a DLL.
    pub dll: bool,
    /// Whether the image has no entry.
    pub noentry: bool,
    /// Whether the image may be loaded at another address (dynamic base).
    pub dynamic: bool,
    /// Whether that address may be anywhere in 64 bits (high entropy).
    pub entropy: bool,
    /// Whether the image takes part in data execution prevention.
    pub nx: bool,
    /// Whether the image works at addresses from 2 GiB on.
    pub large: bool,
    /// The name that the image begins at; none with `noentry`.
    pub entry: Option<Name<'w>>,
    /// Whether the image has no base relocations, and loads at `base` alone.
    pub fixed: bool,
    /// Bytes of heap: (reserved, committed).
    pub heap: (u64, u64),
    /// Bytes of stack: (reserved, committed).
    pub stack: (u64, u64),
    /// Folders in which libraries are looked for.
    pub lib_paths: Vec<&'w str>,
    /// The file that the map is written to, where one is asked for.
    pub map: Option<String>,
    /// The file that the import library is written to, where one is asked for.
    pub implib: Option<&'w str>,
    /// Default libraries that are not searched, by their file names.
    pub no_default: Vec<&'w str>,
    /// Whether no default library is searched.
    pub no_default_all: bool,
    /// Whether unreferenced sections are dropped, where a word says so or says not.
    pub refs: Option<bool>,
    /// Whether equal functions fold: `/OPT:ICF`, and off where the last word is `NOICF` or none says.
    pub icf: bool,
    /// The file that the image is written to.
    pub out: String,
    /// The file that the PDB is written to, where one is written.
    pub pdb: String,
    /// The number of the subsystem that the image runs under.
    pub subsystem: u16,
    /// The time that the image is stamped with, in seconds since 1970.
    pub time: u32,
    /// The version of the image: (major, minor).
    pub version: (u16, u16),
}
