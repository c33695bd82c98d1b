//! The inputs of a link, opened in the order of the words.

ghost use Rattle.std.specs.Prelude.{◌≡◌, ◌≤◌, ◌++◌, ◌∷◌, ◌||◌, [], None, true, length, map, All, IfOk, OnOk, IfErr};
ghost use Rattle.std.specs.List.{list_any};
ghost use Rattle.link_base.specs.Limits.{FILE_LIMIT as most_bytes, MODULE_LIMIT as most_modules};
ghost use Rattle.file_search.specs.Reading.{file_found, files_found};
ghost use Rattle.res_merge.specs.Entries.{entry_of};
ghost use Rattle.resource_files.specs.SaidFaults.{RefusesSaid};
ghost use Rattle.resource_files.specs.Held.{entries_in, entries_among, merges_resources, resource_fault};
ghost use Rattle.resource_files.specs.Parts.{KeepsResources};
ghost use Rattle.par_read.specs.Joining.{brings_resources};
ghost use Rattle.lib_search.specs.Inputs.{modules_among, libraries_among, file_fault, opening_fault};
ghost use Rattle.lib_search.specs.OpenedFiles.{AnswersFile};

use crate::library::{OpenLibrary, push_library};
use crate::opened_files::{job_of, next_answer, open_modules};
use file_search::FoundFile;
use lib_reader::begins_library;
use link_base::{Fault, Kind, Memory, Refusal};
use link_files::Gate;
use module_view::Module;
use par_read::{Answer, join_opened};
use resource_files::{ResourceFiles, begins_resources};
use std::alloc::Global;
use std::thread::Threads;

/// The inputs of a link: modules, libraries that are searched, and resource files.
#[derive(Drop)]
pub(crate) struct OpenInputs<'a> {
    pub(crate) modules: Vec<Module<'a>>,
    /// A module brings resources.
    brings: bool,
    pub(crate) libraries: Vec<OpenLibrary<'a>>,
    pub(crate) resource_files: ResourceFiles<'a>,
}

/// Opens the inputs: the modules among them at once, and then all in their order. The first that does not open is refused.
pub(crate) fn open_inputs<'a, R: Threads + Sync, G: Gate>(
    rt: &R,
    alloc: Global,
    files: &[FoundFile<'a>],
    gate: &G,
) -> Result<OpenInputs<'a>, Refusal<'a>>
    requires { All (λ file. length file.bytes.now ≤ most_bytes) files.now }
    ensures modules { IfOk result (λ opened. opened.modules.items ≡ modules_among (files_found files.now)) }
    ensures libraries { IfOk result (λ opened. opened.libraries.items ≡ libraries_among (files_found files.now)) }
    ensures few { IfOk result (λ opened. length opened.modules.items ≤ most_modules) }
    ensures resources { IfOk result (λ opened. map entry_of opened.resource_files.resources.items ≡ entries_among (files_found files.now)) }
    ensures merges { IfOk result (λ opened. opened.resource_files.opened ≡ merges_resources (files_found files.now)) }
    ensures kept { IfOk result (λ opened. KeepsResources opened.resource_files) }
    ensures accepted { OnOk result (opening_fault (files_found files.now) ≡ None) }
    ensures refused { IfErr result (RefusesSaid (opening_fault (files_found files.now))) }
{
    let mut opened = OpenInputs {
        modules: Vec::with_capacity(alloc, files.len())?,
        brings: false,
        libraries: Vec::new(alloc),
        resource_files: ResourceFiles::new(alloc),
    };
    let mut answers = open_modules(rt, alloc, files, gate)?;
    for file in files {
        let answer = next_answer(file, &mut answers);
        open_one(&mut opened, file, answer)?;
    }
    Ok(opened)
}

/// Opens an input after those before it. A module was opened, with this answer.
fn open_one<'a>(
    opened: &mut OpenInputs<'a>,
    file: &FoundFile<'a>,
    answer: Option<Answer<'a>>,
) -> Result<(), Refusal<'a>>
    requires short { length file.now.bytes.now ≤ most_bytes }
    requires brings { opened.old.brings ≡ list_any brings_resources opened.old.modules.items }
    requires kept { KeepsResources opened.old.resource_files }
    requires answer { AnswersFile file.now answer }
    ensures brings { OnOk result (opened.new.brings ≡ list_any brings_resources opened.new.modules.items) }
    ensures modules { OnOk result (opened.new.modules.items ≡ opened.old.modules.items ++ modules_among (file_found file.now ∷ [])) }
    ensures libraries { OnOk result (opened.new.libraries.items ≡ opened.old.libraries.items ++ libraries_among (file_found file.now ∷ [])) }
    ensures few { OnOk result (length opened.old.modules.items ≤ most_modules → length opened.new.modules.items ≤ most_modules) }
    ensures resources { OnOk result (map entry_of opened.new.resource_files.resources.items ≡ map entry_of opened.old.resource_files.resources.items ++ entries_among (file_found file.now ∷ [])) }
    ensures merges { OnOk result (opened.new.resource_files.opened ≡ (opened.old.resource_files.opened || merges_resources (file_found file.now ∷ []))) }
    ensures kept { OnOk result (KeepsResources opened.new.resource_files) }
    ensures accepted { OnOk result (file_fault (file_found file.now) opened.old.modules.items (map entry_of opened.old.resource_files.resources.items) opened.old.resource_files.opened ≡ None) }
    ensures refused { IfErr result (RefusesSaid (file_fault (file_found file.now) opened.old.modules.items (map entry_of opened.old.resource_files.resources.items) opened.old.resource_files.opened)) }
{
    if begins_library(file.bytes) {
        let library = OpenLibrary::open(file.file.again(), file.bytes)?;
        push_library(&mut opened.libraries, library)?;
        return Ok(());
    }
    if begins_resources(file.bytes) {
        return open_resources(opened.brings, &mut opened.resource_files, file);
    }
    let Some(answer) = answer else { unreachable!() };
    let job = job_of(file);
    let merges = opened.resource_files.opened;
    let module = join_opened(answer, &job, merges, &opened.modules)?;
    let brings = opened.brings || module.has_resources();
    push_module(&mut opened.modules, module)?;
    opened.brings = brings;
    Ok(())
}

/// Opens a resource file. It is refused where a module before it brings resources.
fn open_resources<'a>(
    brings: bool,
    resource_files: &mut ResourceFiles<'a>,
    file: &FoundFile<'a>,
) -> Result<(), Refusal<'a>>
    requires short { length file.now.bytes.now ≤ most_bytes }
    requires kept { KeepsResources resource_files.old }
    ensures kept { OnOk result (KeepsResources resource_files.new) }
    ensures entries { OnOk result (map entry_of resource_files.new.resources.items ≡ map entry_of resource_files.old.resources.items ++ entries_in (file_found file.now)) }
    ensures opened { OnOk result (resource_files.new.opened ≡ true) }
    ensures accepted { OnOk result (resource_fault (file_found file.now) brings (map entry_of resource_files.old.resources.items) ≡ None) }
    ensures refused { IfErr result (RefusesSaid (resource_fault (file_found file.now) brings (map entry_of resource_files.old.resources.items))) }
{
    if brings {
        return Err(Refusal::Fault(Fault::Unsupported {
            file: file.file.again(),
            member: None,
            kind: Kind::SecondResource,
        }));
    }
    resource_files.open(file)
}

/// Appends a module.
pub(crate) fn push_module<'a>(
    modules: &mut Vec<Module<'a>>,
    module: Module<'a>,
) -> Result<(), Memory>
    ensures { OnOk result (modules.new.items ≡ modules.old.items ++ «module».entry ∷ []) }
{
    modules.push(module)?;
    Ok(())
}
