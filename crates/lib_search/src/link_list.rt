//! The modules of a link.

ghost use Rattle.std.specs.Prelude.{◌≡◌, ◌<◌, ◌-◌, ◌^◌};
ghost use Rattle.link_files.specs.Outside.{files_of};
ghost use Rattle.link_words.specs.Outcome.{options_said};
ghost use Rattle.lib_search.specs.Completion.{Completes};
ghost use Rattle.lib_search.specs.LoadingSteps.{state_now, KeepsLoading, CompletesFrom};

use crate::loading::{Loading, join_member, read_default, start};
use file_search::read_inputs;
use input_arena::Inputs;
use link_base::Stop;
use link_files::{Files, Gate};
use link_words::Options;
use module_view::Module;
use res_merge::Resource;
use std::alloc::Global;
use std::thread::Threads;
use symbol_table::SymbolTable;

/// What takes part in a link: the modules, in the order of joining, the table of their names, and the resources of the resource
/// files among the inputs, in the order of the words and in each file in its order.
#[derive(Drop)]
pub struct LinkList<'a> {
    pub modules: Vec<Module<'a>>,
    pub table: SymbolTable<'a>,
    pub resources: Vec<Resource<'a>>,
}

/// Reads and opens the inputs that the options name, and searches libraries for what they ask for: those among the inputs, then
/// the default libraries. The first fault of an input, of a default library or of a member that is to join is refused
/// (`NotFound`, `FileTooLarge`, `InputLimit`, `BadObject`, `BadImport`, `BadLibrary`, `BadDirective`, `Unsupported`).
///
/// An input that begins with the empty entry of a resource file is one. Behind a module with a section `.rsrc` it is refused
/// (`Unsupported`), and so is such a module behind it, also one of a library. Then the first malformed entry is refused
/// (`BadResource`), more than 65,535 entries of this file and those before it (`TooManyResources`), and the first entry whose
/// type, name and language an earlier one of these files has (`DuplicateResource`).
pub fn complete<'a, R: Threads + Sync, F: Files, G: Gate>(
    rt: &R,
    alloc: Global,
    files: &mut F,
    inputs: &mut Inputs<'a>,
    options: &Options<'a>,
    gate: &G,
) -> Result<LinkList<'a>, Stop<'a>>
    requires reads_below { F.read_faults files.old < 2 ^ 64 - 1 }
    requires writes_below { F.write_faults files.old < 2 ^ 64 - 1 }
    requires none_read { inputs.old ≡ 0 }
    ensures { Completes (options_said options.now)
        (files_of F.store F.read_faults F.write_faults files.old)
        (files_of F.store F.read_faults F.write_faults files.new) result }
{
    let read = match read_inputs(alloc, files, inputs, options) {
        Ok(read) => read,
        Err(stop) => return Err(stop),
    };
    match start(rt, alloc, inputs, options, &read, gate) {
        Ok(begun) => search(
            alloc,
            files,
            inputs,
            options,
            begun.loading,
            begun.resources,
        ),
        Err(refusal) => Err(Stop::from(refusal)),
    }
}

/// Searches libraries until nothing is left to join: default libraries are read before the search goes on.
fn search<'a, F: Files>(
    alloc: Global,
    files: &mut F,
    inputs: &mut Inputs<'a>,
    options: &Options<'a>,
    loading: Loading<'a>,
    resources: Vec<Resource<'a>>,
) -> Result<LinkList<'a>, Stop<'a>>
    requires reads_below { F.read_faults files.old < 2 ^ 64 - 1 }
    requires writes_below { F.write_faults files.old < 2 ^ 64 - 1 }
    requires kept { KeepsLoading (options_said options.now) loading }
    ensures { CompletesFrom (options_said options.now) (state_now loading.entry inputs.old) resources.entry.items
        (files_of F.store F.read_faults F.write_faults files.old)
        (files_of F.store F.read_faults F.write_faults files.new) result }
{
    let mut loading = loading;
    loop {
        if loading.read < loading.defaults.count() {
            match read_default(alloc, files, inputs, options, loading) {
                Ok(later) => loading = later,
                Err(stop) => return Err(stop),
            }
            continue;
        }
        let Some(place) = loading.search.next_member() else {
            let (modules, table) = loading.search.finish();
            return Ok(LinkList {
                modules,
                table,
                resources,
            });
        };
        match join_member(alloc, inputs, &mut loading, place) {
            Ok(()) => {}
            Err(refusal) => return Err(Stop::from(refusal)),
        }
    }
}
