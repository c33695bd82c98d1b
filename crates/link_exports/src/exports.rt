//! The exports of a link, with their ordinals.

ghost use Rattle.std.specs.Prelude.{◌≡◌, ◌≤◌, ◌<◌, ◌^◌, None, length, map, IfOk, OnOk};
ghost use Rattle.std.specs.List.{All};
ghost use Rattle.std.specs.String.{string_bytes};
ghost use Rattle.link_words.specs.Outcome.{options_said};
ghost use Rattle.export_tables.specs.ExportTable.{DLL_LIMIT, AreNumbered};
ghost use Rattle.export_tables.specs.Ordinals.{row_at, ordinals_of, ordinal_fault};
ghost use Rattle.link_exports.specs.Exports.{unplaced_row, dll_name, size_of, exports_from, exports_of, AreTold, CanBeTold};

use crate::rows::{check_rows, export_rows};
use crate::table_rows::{dll_name, unplaced_rows};
use directives::Export;
use export_tables::{ExportError, assign, length};
use link_base::{ExportFault, Fault, Memory, NAME_LIMIT, Name};
use link_words::Options;
use module_view::Module;
use std::alloc::Global;
use std::marker::Model;

/// More exports than this have no ordinals.
const MOST_ROWS: usize = 65_535;

/// The name of a DLL is at most so long: that of an image, with an extension behind a name that has none.
const DLL_LIMIT: usize = NAME_LIMIT + 4;

/// The exports of a link, with their ordinals and the size of the table that names them.
#[derive(Drop)]
pub struct LinkExports<'a> {
    rows: Vec<Export<'a>>,
    ordinals: Vec<u16>,
    /// What is wrong with the ordinals, and the name of the export that has it.
    refused: Option<(ExportFault, Name<'a>)>,
    dll: Vec<u8>,
    size: u32,
    time: u32,
}

impl<'a> Model for LinkExports<'a> {
    ghost use Rattle.std.specs.Prelude.{option_map};
    ghost use Rattle.link_exports.specs.Exports.{ExportsView, bad_export};

    ghost Value = { ExportsView };

    ghost view = { λ exports. record { rows = exports.rows.items; ordinals = exports.ordinals.items; fault = option_map bad_export exports.refused; dll = exports.dll.items; size = exports.size; time = exports.time } };
}

impl<'a> LinkExports<'a> {
    /// Each export once, in the order in which they first stand: those of the command line, then those of the modules.
    pub fn rows(&self) -> &[Export<'a>]
        ensures { result.now ≡ self.now.rows }
    {
        &self.rows
    }

    /// The ordinal of each; none where something is wrong with them.
    pub fn ordinals(&self) -> &[u16]
        ensures { result.now ≡ self.now.ordinals }
    {
        &self.ordinals
    }

    /// What is wrong with the ordinals, where something is.
    pub fn fault(&self) -> Option<Fault<'a>>
        ensures { result ≡ self.now.fault }
    {
        match &self.refused {
            Some((kind, name)) => Some(Fault::BadExport {
                kind: *kind,
                name: name.again(),
            }),
            None => None,
        }
    }

    /// The name of the image as a DLL.
    pub fn dll(&self) -> Name<'_>
        ensures { result ≡ self.now.dll }
    {
        Name::of(&self.dll)
    }

    /// The time of the image, which its export directory has too.
    pub fn time(&self) -> u32
        ensures { result ≡ self.now.time }
    {
        self.time
    }

    /// The size of the export table; 0 where there is none, or something is wrong with the ordinals.
    pub fn size(&self) -> u32
        ensures { result ≡ self.now.size }
    {
        self.size
    }
}

/// The exports of a link with these options. A name of more than 32,000 bytes or with a NUL, which words and modules do not
/// have, is want of memory.
pub fn link_exports<'a>(
    alloc: Global,
    options: &Options<'a>,
    modules: &[Module<'a>],
) -> Result<LinkExports<'a>, Memory>
    ensures exports { IfOk result (λ exports. exports ≡ exports_of (options_said options.now) modules.now) }
    ensures told { IfOk result AreTold }
{
    let rows = export_rows(alloc, options, modules)?;
    check_rows(&rows)?;
    let dll = dll_of(alloc, options)?;
    exports_from(alloc, rows, dll, options.time)
}

/// The name of the image as a DLL.
fn dll_of(alloc: Global, options: &Options<'_>) -> Result<Vec<u8>, Memory>
    ensures name { IfOk result (λ dll. dll.items ≡ dll_name (string_bytes options.now.out)) }
    ensures short { IfOk result (λ dll. length dll.items ≤ DLL_LIMIT) }
{
    let name = dll_name(options.out.as_bytes());
    if name.len() > DLL_LIMIT {
        return Err(Memory);
    }
    Ok(name.to_vec(alloc)?)
}

/// These exports, with their ordinals or what is wrong with these.
#[tactic(auto, unfolding(crate::specs::Exports::numbers_of, crate::specs::Exports::numbers_fault, crate::specs::Exports::size_if))]
fn exports_from<'a>(
    alloc: Global,
    rows: Vec<Export<'a>>,
    dll: Vec<u8>,
    time: u32,
) -> Result<LinkExports<'a>, Memory>
    requires told { All CanBeTold rows.items }
    requires few { length rows.items < 2 ^ 32 }
    requires dll { length dll.items ≤ DLL_LIMIT }
    ensures exports { IfOk result (λ exports. exports ≡ exports_from rows.entry.items dll.items time) }
    ensures told { IfOk result AreTold }
{
    match assign(alloc, &rows) {
        Ok(ordinals) => {
            let size = size_of(alloc, &rows, &ordinals, &dll)?;
            Ok(LinkExports {
                rows,
                ordinals,
                refused: None,
                dll,
                size,
                time,
            })
        }
        Err(ExportError::Bad { row, kind }) => Ok(LinkExports {
            refused: Some((kind, row_name(&rows, row))),
            rows,
            ordinals: Vec::new(alloc),
            dll,
            size: 0,
            time,
        }),
        Err(ExportError::Memory) => Err(Memory),
    }
}

/// The name of the export of an index.
fn row_name<'a>(rows: &[Export<'a>], index: u32) -> Name<'a>
    ensures { result ≡ (row_at rows.now index).name }
{
    match rows.get(index as usize) {
        Some(row) => row.name.again(),
        None => Name::of(b""),
    }
}

/// The size of the table of exports that have these ordinals: without exports there is none. More of them than there are
/// ordinals, to which none are given, would be want of memory.
fn size_of<'a>(
    alloc: Global,
    rows: &[Export<'a>],
    ordinals: &[u16],
    dll: &[u8],
) -> Result<u32, Memory>
    requires told { All CanBeTold rows.now }
    requires none { ordinal_fault rows.now ≡ None }
    requires ordinals { ordinals.now ≡ ordinals_of rows.now }
    requires dll { length dll.now ≤ DLL_LIMIT }
    ensures size { IfOk result (λ size. size ≡ size_of rows.now ordinals.now dll.now) }
    ensures numbered { OnOk result (AreNumbered (map unplaced_row rows.now) ordinals.now) }
{
    if rows.len() > MOST_ROWS {
        return Err(Memory);
    }
    if rows.is_empty() {
        return Ok(0);
    }
    let unplaced = unplaced_rows(alloc, rows)?;
    Ok(length(&unplaced, ordinals, Name::of(dll)))
}
