//! Files that are looked for under several names.

ghost use Rattle.std.specs.Prelude.{◌≡◌, ◌<◌, ◌-◌, ◌^◌, ◌∷◌, map, IfOk};
ghost use Rattle.std.specs.String.{string_bytes};
ghost use Rattle.link_files.specs.Outside.{files_of};
ghost use Rattle.directives.specs.Text.{has};
ghost use Rattle.link_words.specs.Extension.{is_slash};
ghost use Rattle.link_words.specs.SettingsView.{texts_of};
ghost use Rattle.file_search.specs.FileNames.{in_folder, tried_names};
ghost use Rattle.file_search.specs.Reading.{TriesName, ReadsNamed};

use crate::found::{FoundFile, found_by, not_found};
use input_arena::{Inputs, LoadError};
use link_base::{Memory, Stop};
use link_files::Files;
use memchr::memchr2;
use std::alloc::Global;

/// Loads the file of this name, or the first one in a folder, where the name has no slash. A name in a folder costs
/// no arena where no file is there.
pub fn find_file<'a, F: Files>(
    alloc: Global,
    files: &mut F,
    inputs: &mut Inputs<'a>,
    folders: &[&str],
    name: &'a str,
) -> Result<FoundFile<'a>, Stop<'a>>
    requires reads_below { F.read_faults files.old < 2 ^ 64 - 1 }
    requires writes_below { F.write_faults files.old < 2 ^ 64 - 1 }
    ensures { ReadsNamed (texts_of folders.now) name.now inputs.old inputs.new
        (files_of F.store F.read_faults F.write_faults files.old)
        (files_of F.store F.read_faults F.write_faults files.new) result }
{
    match load_named(files, inputs, name) {
        Ok(None) => {}
        Ok(Some(found)) => return Ok(found),
        Err(stop) => return Err(stop),
    }
    let searched = searched_folders(folders, name);
    for index in 0..searched.len() {
        match load_in_folder(alloc, files, inputs, searched[index], name) {
            Ok(None) => {}
            Ok(Some(found)) => return Ok(found),
            Err(stop) => return Err(stop),
        }
    }
    Err(Stop::Fault(not_found(name)))
}

/// Loads the file of this name, where it is there.
fn load_named<'a, F: Files>(
    files: &mut F,
    inputs: &mut Inputs<'a>,
    name: &'a str,
) -> Result<Option<FoundFile<'a>>, Stop<'a>>
    requires reads_below { F.read_faults files.old < 2 ^ 64 - 1 }
    requires writes_below { F.write_faults files.old < 2 ^ 64 - 1 }
    ensures { TriesName name.now inputs.old inputs.new
        (files_of F.store F.read_faults F.write_faults files.old)
        (files_of F.store F.read_faults F.write_faults files.new) result }
{
    let loaded = inputs.load(files, name);
    found_by(name, loaded)
}

/// Loads the file of this name in a folder, where it is there.
fn load_in_folder<'a, F: Files>(
    alloc: Global,
    files: &mut F,
    inputs: &mut Inputs<'a>,
    folder: &str,
    name: &str,
) -> Result<Option<FoundFile<'a>>, Stop<'a>>
    requires reads_below { F.read_faults files.old < 2 ^ 64 - 1 }
    requires writes_below { F.write_faults files.old < 2 ^ 64 - 1 }
    ensures { TriesName (in_folder name.now folder.now) inputs.old inputs.new
        (files_of F.store F.read_faults F.write_faults files.old)
        (files_of F.store F.read_faults F.write_faults files.new) result }
{
    let Ok(path) = path_in(alloc, folder, name) else {
        return Err(Stop::Memory);
    };
    let loaded = inputs.load(files, path.as_str());
    if let Err(LoadError::NotFound) = loaded {
        return Ok(None);
    }
    match inputs.text(path.as_str()) {
        Ok(kept) => found_by(kept, loaded),
        Err(Memory) => Err(Stop::Memory),
    }
}

/// The name of a file in a folder.
fn path_in(alloc: Global, folder: &str, name: &str) -> Result<String, Memory>
    ensures { IfOk result (λ path. string_bytes path ≡ in_folder name.now folder.now) }
{
    Ok(format!(in alloc; "{folder}/{name}")?)
}

/// The folders in which a file is looked for besides: none where its name has a slash.
fn searched_folders<'f, 'w>(folders: &'f [&'w str], name: &str) -> &'f [&'w str]
    ensures { name.now ∷ map (in_folder name.now) (texts_of result.now) ≡ tried_names (texts_of folders.now) name.now }
{
    if has_slash(name) {
        &folders[..0]
    } else {
        folders
    }
}

/// Whether a name has a slash.
fn has_slash(name: &str) -> bool
    ensures { result ≡ has is_slash name.now }
{
    memchr2(b'/', b'\\', name.as_bytes()).is_some()
}
