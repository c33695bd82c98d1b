//! What names mean in the modules of a link.

ghost use Rattle.std.specs.Prelude.{◌≡◌, ◌≤◌, true, None, Some, map, length, IfSome, IfOk, OnOk, IfErr};
ghost use Rattle.std.specs.List.{All};
ghost use Rattle.link_base.specs.Limits.{MODULE_LIMIT};
ghost use Rattle.link_base.specs.Refusals.{RefusesFor};
ghost use Rattle.coff_records.specs.ObjectFile.{symbol_at, name_in};
ghost use Rattle.module_view.specs.Module.{module_at};
ghost use Rattle.symbol_names.specs.Kept.{rows_of};
ghost use Rattle.comdat.specs.Selection.{chosen_sections};
ghost use Rattle.link_pieces.specs.LinkParts.{parts_of};
ghost use Rattle.link_pieces.specs.LocalSlots.{modules_asked};
ghost use Rattle.link_pieces.specs.NameMeaning.{name_meaning, MeansNoted, takes_part, StandsIn};
ghost use Rattle.link_pieces.specs.ChoiceFaults.{conflict_fault, clash_fault};

use coff_object::SymbolRecord;
use comdat::{ChooseError, choose_all};
use link_base::{Fault, Name, Refusal};
use link_debug::LinkDebug;
use link_exports::LinkExports;
use link_resources::LinkResources;
use module_view::Module;
use std::alloc::Global;
use std::marker::Model;
use symbol_table::{Chosen, Meaning, NoMeaning, ResolvedNames, SymbolTable};

/// What names mean in the modules of a link, of each group of whose COMDAT sections one is chosen, what it exports, what
/// its image says of its PDB, and the resources of the image.
#[derive(Drop)]
pub struct LinkNames<'a> {
    names: ResolvedNames<'a>,
    exports: LinkExports<'a>,
    debug: LinkDebug,
    resources: LinkResources<'a>,
}

impl<'a> Model for LinkNames<'a> {
    ghost use Rattle.std.specs.Prelude.{◌≡◌};
    ghost use Rattle.link_pieces.specs.LinkParts.{LinkParts, parts_of};
    ghost use Rattle.comdat.specs.Selection.{chosen_sections};

    ghost Value = { LinkParts };

    ghost view = { λ t. parts_of t.names.link t.exports t.debug t.resources };

    ghost invariant = { λ t. t.names.chosen ≡ chosen_sections t.names.link.modules };
}

impl<'a> LinkNames<'a> {
    /// What the link exports.
    pub fn exports(&self) -> &LinkExports<'a>
        ensures { result.now ≡ self.now.exports }
    {
        &self.exports
    }

    /// What the image says of its PDB.
    pub fn debug(&self) -> &LinkDebug
        ensures { result.now ≡ self.now.debug }
    {
        &self.debug
    }

    /// The resources of the image.
    pub fn resources(&self) -> &LinkResources<'a>
        ensures { result.now ≡ self.now.resources }
    {
        &self.resources
    }

    /// Whether each name that a module asks for means something that stands already: it is no slot that has to be made. Where the
    /// answer is no, some name does not, which nothing need ask for.
    pub fn all_stand(&self) -> bool
        ensures { result ≡ true → All (StandsIn self.now) (modules_asked self.now) }
    {
        self.names.all_stand()
    }

    /// What a name means.
    pub fn resolve(&self, name: Name<'a>) -> Result<Meaning<'a>, NoMeaning>
        ensures { result ≡ name_meaning self.now name.entry }
    {
        self.names.resolve(name)
    }

    /// What the name of the symbol at a record means, by the position of its module, where its number is noted: nothing within,
    /// where it means nothing.
    pub fn noted_meaning(&self, module: u32, index: u32) -> Option<Option<&Meaning<'a>>>
        ensures { IfSome result (λ meant. MeansNoted self.now «module» index meant) }
    {
        self.names.noted_meaning(module, index)
    }

    /// What the name of a symbol means, by the position of its module and its record.
    pub fn resolve_symbol(
        &self,
        module: u32,
        index: u32,
        symbol: &SymbolRecord<'a>,
    ) -> Result<Meaning<'a>, NoMeaning>
        requires { symbol.now ≡ symbol_at (module_at self.now.modules «module»).bytes index }
        ensures { result ≡ name_meaning self.now (name_in symbol.now) }
    {
        self.names.resolve_symbol(module, index, symbol)
    }

    /// Whether a section takes part in the link, by the position of its module and its number: it is chosen.
    pub fn takes_part(&self, module: u32, section: u32) -> bool
        ensures { result ≡ takes_part self.now «module» section }
    {
        self.names.is_chosen(module, section)
    }
}

/// What the names of a table mean, whose modules these are, with what the link exports, what its image says of its PDB, and
/// its resources. COMDAT sections that conflict are refused (`ComdatConflict`).
pub fn link_names<'a>(
    alloc: Global,
    table: SymbolTable<'a>,
    modules: &[Module<'a>],
    exports: LinkExports<'a>,
    debug: LinkDebug,
    resources: LinkResources<'a>,
) -> Result<LinkNames<'a>, Refusal<'a>>
    requires few { length modules.now ≤ MODULE_LIMIT }
    requires same { table.modules ≡ modules.now }
    ensures names { IfOk result (λ names. names ≡ parts_of table.entry exports.entry debug resources.entry) }
    ensures accepted { OnOk result (conflict_fault modules.now ≡ None) }
    ensures refused { IfErr result (RefusesFor (conflict_fault modules.now)) }
{
    let chosen = choose(alloc, &table, modules)?;
    let names = table.resolved(alloc, chosen)?;
    Ok(LinkNames {
        names,
        exports,
        debug,
        resources,
    })
}

/// Which sections of the modules are chosen, by the numbers that a table of these modules gives their names.
fn choose<'a>(
    alloc: Global,
    table: &SymbolTable<'a>,
    modules: &[Module<'a>],
) -> Result<Chosen, Refusal<'a>>
    requires few { length modules.now ≤ MODULE_LIMIT }
    requires same { table.now.modules ≡ modules.now }
    ensures chosen { IfOk result (λ chosen. rows_of chosen.items ≡ chosen_sections modules.now) }
    ensures accepted { OnOk result (conflict_fault modules.now ≡ None) }
    ensures refused { IfErr result (RefusesFor (conflict_fault modules.now)) }
{
    let (names, noted) = table.numbered();
    match choose_all(alloc, modules, names, noted) {
        Ok(chosen) => Ok(chosen),
        Err(
            ChooseError::Conflict {
                name,
                first,
                second,
            },
        ) => Err(Refusal::Fault(Fault::ComdatConflict {
            name,
            first: Some(first),
            second: Some(second),
        })),
        Err(ChooseError::Memory) => Err(Refusal::Memory),
    }
}

/// That no name is defined twice: else the input is refused (`Duplicate`).
pub fn check_clash<'a>(names: &LinkNames<'a>) -> Result<(), Fault<'a>>
    ensures accepted { OnOk result (clash_fault names.now.modules ≡ None) }
    ensures refused { IfErr result (λ fault. clash_fault names.now.modules ≡ Some fault) }
{
    match names.names.clash() {
        None => Ok(()),
        Some(clash) => Err(Fault::Duplicate {
            name: clash.name,
            first: Some(clash.first),
            second: Some(clash.second),
        }),
    }
}
