//! The exports of a link, each once.

ghost use Rattle.std.specs.Prelude.{◌≡◌, ◌<◌, ◌^◌, [], ◌∷◌, fold, filter_map, length, map, IfOk, OnOk, IsTrue};
ghost use Rattle.std.specs.List.{All};
ghost use Rattle.directives.specs.Said.{said};
ghost use Rattle.link_words.specs.Outcome.{options_said};
ghost use Rattle.link_exports.specs.Exports.{export_said, with_row, export_rows, CanBeTold};
ghost use Rattle.link_exports.specs.Steps.{SaidRow, said_row, AreNoted};

use directives::{Directive, Export};
use indexmap::IndexSet;
use link_base::{Memory, Name};
use link_words::Options;
use module_view::Module;
use std::alloc::Global;
use symbol_names::forwarder;
use synthetic_sections::can_stand;

/// All by which exports differ: the name, what stands behind it, the ordinal that it asks for, and whether it is found by
/// that alone.
type SaidRow<'a> = (Name<'a>, Option<Name<'a>>, Option<u16>, bool);

/// The exports that are noted, in their order, and what they say, which is looked up by hash.
#[derive(Drop)]
struct NotedRows<'a> {
    rows: Vec<Export<'a>>,
    said: IndexSet<SaidRow<'a>>,
}

/// The exports of the command line and of the modules, in their order, each once: of those that say the same the first,
/// whose form counts.
#[tactic(auto, unfolding(crate::specs::Exports::export_rows))]
pub(crate) fn export_rows<'a>(
    alloc: Global,
    options: &Options<'a>,
    modules: &[Module<'a>],
) -> Result<Vec<Export<'a>>, Memory>
    ensures { IfOk result (λ rows. rows.items ≡ export_rows (options_said options.now) modules.now) }
{
    let mut noted = NotedRows {
        rows: Vec::new(alloc),
        said: IndexSet::new(alloc),
    };
    note_rows(&mut noted, &options.exports)?;
    for module in modules {
        note_directives(&mut noted, module.directives())?;
    }
    Ok(noted.rows)
}

/// Notes exports, each that says what no other says.
fn note_rows<'a>(noted: &mut NotedRows<'a>, rows: &[Export<'a>]) -> Result<(), Memory>
    requires known { AreNoted noted.old }
    ensures known { OnOk result (AreNoted noted.new) }
    ensures rows { OnOk result (noted.new.rows.items ≡ fold with_row noted.old.rows.items rows.now) }
{
    for row in rows {
        note_row(noted, row)?;
    }
    Ok(())
}

/// Notes the exports among directives.
fn note_directives<'a>(
    noted: &mut NotedRows<'a>,
    directives: &[Directive<'a>],
) -> Result<(), Memory>
    requires known { AreNoted noted.old }
    ensures known { OnOk result (AreNoted noted.new) }
    ensures rows { OnOk result (noted.new.rows.items ≡ fold with_row noted.old.rows.items (filter_map export_said (map said directives.now))) }
{
    for directive in directives {
        note_directive(noted, directive)?;
    }
    Ok(())
}

/// Notes a directive, where it is an export.
fn note_directive<'a>(noted: &mut NotedRows<'a>, directive: &Directive<'a>) -> Result<(), Memory>
    requires known { AreNoted noted.old }
    ensures known { OnOk result (AreNoted noted.new) }
    ensures rows { OnOk result (noted.new.rows.items ≡ fold with_row noted.old.rows.items (filter_map export_said (said directive.now ∷ []))) }
{
    match directive {
        Directive::Export(row) => note_row(noted, row),
        Directive::AlignComm { .. }
        | Directive::AlternateName { .. }
        | Directive::DefaultLib(_)
        | Directive::FailIfMismatch { .. }
        | Directive::Include(_)
        | Directive::Merge { .. } => Ok(()),
    }
}

/// Notes an export, where no other says the same.
fn note_row<'a>(noted: &mut NotedRows<'a>, row: &Export<'a>) -> Result<(), Memory>
    requires known { AreNoted noted.old }
    ensures known { OnOk result (AreNoted noted.new) }
    ensures rows { OnOk result (noted.new.rows.items ≡ with_row noted.old.rows.items row.now) }
{
    if noted.said.insert(said_row(row))? {
        noted.rows.push(again(row))?;
    }
    Ok(())
}

/// What an export says.
fn said_row<'a>(row: &Export<'a>) -> SaidRow<'a>
    ensures { result ≡ said_row row.now }
{
    let row = again(row);
    (row.name, row.internal, row.ordinal, row.noname)
}

/// The same export.
fn again<'a>(row: &Export<'a>) -> Export<'a>
    ensures { result ≡ row.now }
{
    Export {
        name: row.name.again(),
        internal: match &row.internal {
            Some(name) => Some(name.again()),
            None => None,
        },
        ordinal: row.ordinal,
        noname: row.noname,
        form: row.form,
        private: row.private,
    }
}

/// That each name and each forwarder can stand in a table, and that there are fewer than 2^32 exports.
pub(crate) fn check_rows(rows: &[Export<'_>]) -> Result<(), Memory>
    ensures told { OnOk result (All CanBeTold rows.now) }
    ensures few { OnOk result (length rows.now < 2 ^ 32) }
{
    if rows.len() > u32::MAX as usize {
        return Err(Memory);
    }
    for row in rows {
        check_row(row)?;
    }
    Ok(())
}

/// That the name of an export and its forwarder can stand in a table.
fn check_row(row: &Export<'_>) -> Result<(), Memory>
    ensures { OnOk result (CanBeTold row.now) }
{
    if can_be_told(row) {
        Ok(())
    } else {
        Err(Memory)
    }
}

/// Whether an export has a name, and this and its forwarder can stand in a table.
fn can_be_told(row: &Export<'_>) -> bool
    ensures { IsTrue result → CanBeTold row.now }
{
    if row.name.is_empty() || !can_stand(&row.name) {
        return false;
    }
    match forwarder(row) {
        Some(text) => can_stand(&text),
        None => true,
    }
}
