//! A loading: what has joined, and the default libraries that are still to be read.

ghost use Rattle.std.specs.Prelude.{◌≡◌, ◌≤◌, ◌<◌, ◌+◌, ◌-◌, ◌^◌, [], None, true, length, map, All, IfOk, OnOk, IfErr};
ghost use Rattle.std.specs.List.{sum_by};
ghost use Rattle.link_base.specs.Limits.{FILE_LIMIT as most_bytes, INPUT_LIMIT as most_together, MODULE_LIMIT as most_modules};
ghost use Rattle.link_base.specs.Refusals.{RefusesFor};
ghost use Rattle.link_files.specs.Outside.{files_of};
ghost use Rattle.link_words.specs.Outcome.{LinkOptions, options_said};
ghost use Rattle.file_search.specs.DefaultLibraries.{default_names};
ghost use Rattle.file_search.specs.DefaultSteps.{KeepsDefaults};
ghost use Rattle.file_search.specs.Reading.{file_found, files_found};
ghost use Rattle.res_merge.specs.Entries.{entry_of};
ghost use Rattle.res_merge.specs.Order.{AreMergeable};
ghost use Rattle.res_merge.specs.Found.{AreNumbered};
ghost use Rattle.resource_files.specs.SaidFaults.{RefusesSaid};
ghost use Rattle.resource_files.specs.Held.{entries_among};
ghost use Rattle.lib_search.specs.LinkOf.{link_of};
ghost use Rattle.lib_search.specs.Inputs.{opening_fault};
ghost use Rattle.lib_search.specs.Loading.{inputs_state};
ghost use Rattle.lib_search.specs.AlternateParts.{KeepsSearch};
ghost use Rattle.lib_search.specs.LoadingSteps.{state_now, KeepsLoading, ReadsDefault};
ghost use Rattle.lib_search.specs.LibraryFaults.{no_library};
ghost use Rattle.lib_search.specs.SearchParts.{IsFresh};
ghost use Rattle.lib_search.specs.SearchSteps.{join_fault, with_member, with_library, wants_library};

use crate::library::OpenLibrary;
use crate::open::{OpenInputs, open_inputs};
use crate::search::Search;
use file_search::{DefaultLibraries, FoundFile, find_file};
use input_arena::Inputs;
use link_base::{Memory, Refusal, Stop};
use link_files::{Files, Gate};
use link_words::Options;
use module_view::Module;
use res_merge::Resource;
use std::alloc::Global;
use std::thread::Threads;

/// What has joined so far, the default libraries that are searched, and how many of these were read.
#[derive(Drop)]
pub(crate) struct Loading<'a> {
    pub(crate) search: Search<'a>,
    pub(crate) defaults: DefaultLibraries<'a>,
    pub(crate) read: usize,
}

/// What the inputs are: a loading begins with them, and the resources of the resource files among them.
#[derive(Drop)]
pub(crate) struct Begun<'a> {
    pub(crate) loading: Loading<'a>,
    pub(crate) resources: Vec<Resource<'a>>,
}

/// Opens the inputs, with which a loading begins. The first that does not open is refused.
pub(crate) fn start<'a, R: Threads + Sync, G: Gate>(
    rt: &R,
    alloc: Global,
    inputs: &mut Inputs<'a>,
    options: &Options<'a>,
    files: &[FoundFile<'a>],
    gate: &G,
) -> Result<Begun<'a>, Refusal<'a>>
    requires short { All (λ file. length file.bytes.now ≤ most_bytes) files.now }
    requires together { sum_by (λ file. length file.bytes) (files_found files.now) ≤ most_together }
    ensures kept { IfOk result (λ begun. KeepsLoading (options_said options.now) begun.loading) }
    ensures mergeable { IfOk result (λ begun. AreMergeable (map entry_of begun.resources.items)) }
    ensures numbered { IfOk result (λ begun. AreNumbered (map entry_of begun.resources.items)) }
    ensures resources { IfOk result (λ begun. map entry_of begun.resources.items ≡ entries_among (files_found files.now)) }
    ensures state { IfOk result (λ begun. state_now begun.loading inputs.new ≡ inputs_state (options_said options.now) (files_found files.now) inputs.old) }
    ensures accepted { OnOk result (opening_fault (files_found files.now) ≡ None) }
    ensures refused { IfErr result (RefusesSaid (opening_fault (files_found files.now))) }
{
    let opened = open_inputs(rt, alloc, files, gate)?;
    let OpenInputs {
        modules,
        libraries,
        resource_files,
        ..
    } = opened;
    let merges = resource_files.opened;
    let loading = loading_of(alloc, inputs, options, modules, libraries, merges)?;
    Ok(Begun {
        loading,
        resources: resource_files.resources,
    })
}

/// A loading that begins with these modules and libraries, where a resource file was opened or not.
fn loading_of<'a>(
    alloc: Global,
    inputs: &mut Inputs<'a>,
    options: &Options<'a>,
    modules: Vec<Module<'a>>,
    libraries: Vec<OpenLibrary<'a>>,
    merges: bool,
) -> Result<Loading<'a>, Memory>
    requires { length modules.items ≤ most_modules }
    ensures kept { IfOk result (KeepsLoading (options_said options.now)) }
    ensures searched { IfOk result (λ loading. loading.search.searched ≡ record {
      link = link_of (options_said options.now) modules.entry.items;
      libraries = libraries.entry.items;
      merges = merges;
      joined = [];
    }) }
    ensures unread { IfOk result (λ loading. loading.read ≡ 0) }
    ensures total_kept { inputs.new ≡ inputs.old }
{
    let defaults = defaults_of(alloc, inputs, options, &modules)?;
    let search = Search::new(alloc, options, modules, libraries, merges)?;
    Ok(Loading {
        search,
        defaults,
        read: 0,
    })
}

/// The default libraries that the options and these modules name.
fn defaults_of<'a>(
    alloc: Global,
    inputs: &mut Inputs<'a>,
    options: &Options<'a>,
    modules: &[Module<'a>],
) -> Result<DefaultLibraries<'a>, Memory>
    ensures named { IfOk result (λ defaults. KeepsDefaults (options_said options.now) (default_names (options_said options.now) modules.now) defaults) }
    ensures total_kept { inputs.new ≡ inputs.old }
{
    let mut defaults = DefaultLibraries::new(alloc, inputs, options)?;
    for module in modules {
        defaults.add_module(alloc, inputs, module)?;
    }
    Ok(defaults)
}

/// Reads the next default library. One that is not read, whose read fails, or that is no library, ends the loading.
pub(crate) fn read_default<'a, F: Files>(
    alloc: Global,
    files: &mut F,
    inputs: &mut Inputs<'a>,
    options: &Options<'a>,
    loading: Loading<'a>,
) -> Result<Loading<'a>, Stop<'a>>
    requires reads_below { F.read_faults files.old < 2 ^ 64 - 1 }
    requires writes_below { F.write_faults files.old < 2 ^ 64 - 1 }
    requires kept { KeepsLoading (options_said options.now) loading }
    requires wants { wants_library (options_said options.now) (state_now loading inputs.old) ≡ true }
    ensures { ReadsDefault (options_said options.now) (state_now loading.entry inputs.old) inputs.new
        (files_of F.store F.read_faults F.write_faults files.old)
        (files_of F.store F.read_faults F.write_faults files.new) result }
{
    let name = loading.defaults.name_at(loading.read);
    match find_file(alloc, files, inputs, &options.lib_paths, name) {
        Ok(found) => match with_default(loading, found) {
            Ok(later) => Ok(later),
            Err(refusal) => Err(Stop::from(refusal)),
        },
        Err(stop) => Err(stop),
    }
}

/// Searches a file as the next default library. One that is no library is refused.
fn with_default<'a>(loading: Loading<'a>, found: FoundFile<'a>) -> Result<Loading<'a>, Refusal<'a>>
    requires few { loading.read < 2 ^ 64 - 1 }
    requires short { length found.bytes.now ≤ most_bytes }
    requires kept { KeepsSearch loading.search }
    ensures search { IfOk result (λ later. later.search.searched ≡ with_library loading.entry.search.searched (file_found found.entry)) }
    ensures kept { IfOk result (λ later. KeepsSearch later.search) }
    ensures defaults { IfOk result (λ later. later.defaults ≡ loading.entry.defaults) }
    ensures read { IfOk result (λ later. later.read ≡ loading.entry.read + 1) }
    ensures accepted { OnOk result (no_library (file_found found.entry) ≡ None) }
    ensures refused { IfErr result (RefusesFor (no_library (file_found found.entry))) }
{
    let library = OpenLibrary::open(found.file, found.bytes)?;
    let Loading {
        search,
        defaults,
        read,
    } = loading;
    Ok(Loading {
        search: search.with_library(library)?,
        defaults,
        read: read + 1,
    })
}

/// The member at a place joins. One that does not open is refused.
pub(crate) fn join_member<'a>(
    alloc: Global,
    inputs: &mut Inputs<'a>,
    loading: &mut Loading<'a>,
    place: (usize, u32),
) -> Result<(), Refusal<'a>>
    requires fresh { IsFresh loading.old.search.searched place }
    requires kept { KeepsSearch loading.old.search }
    ensures search { OnOk result (loading.new.search.searched ≡ with_member loading.old.search.searched place) }
    ensures kept { OnOk result ((options : LinkOptions) → KeepsLoading options loading.old → KeepsLoading options loading.new) }
    ensures read { OnOk result (loading.new.read ≡ loading.old.read) }
    ensures total_kept { inputs.new ≡ inputs.old }
    ensures accepted { OnOk result (join_fault loading.old.search.searched place ≡ None) }
    ensures refused { IfErr result (RefusesFor (join_fault loading.old.search.searched place)) }
{
    let module = loading.search.open_member(alloc, place)?;
    loading.defaults.add_module(alloc, inputs, &module)?;
    loading.search.add_member(place, module)?;
    Ok(())
}
