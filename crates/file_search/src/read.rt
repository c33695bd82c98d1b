//! The inputs of a link, read in the order of the words.

ghost use Rattle.std.specs.Prelude.{◌≡◌, ◌<◌, ◌-◌, ◌^◌};
ghost use Rattle.link_files.specs.Outside.{files_of};
ghost use Rattle.link_words.specs.Outcome.{options_said};
ghost use Rattle.file_search.specs.Reading.{ReadsInputs};

use crate::find::find_file;
use crate::found::FoundFile;
use input_arena::Inputs;
use link_base::Stop;
use link_files::Files;
use link_words::Options;
use std::alloc::Global;

/// Reads the files that the command line names, and stops at the first that is not read or whose read fails.
pub fn read_inputs<'a, F: Files>(
    alloc: Global,
    files: &mut F,
    inputs: &mut Inputs<'a>,
    options: &Options<'a>,
) -> Result<Vec<FoundFile<'a>>, Stop<'a>>
    requires reads_below { F.read_faults files.old < 2 ^ 64 - 1 }
    requires writes_below { F.write_faults files.old < 2 ^ 64 - 1 }
    requires none_read { inputs.old ≡ 0 }
    ensures { ReadsInputs (options_said options.now) inputs.new
        (files_of F.store F.read_faults F.write_faults files.old)
        (files_of F.store F.read_faults F.write_faults files.new) result }
{
    let mut all = Vec::new(alloc);
    for name in &options.inputs {
        match find_file(alloc, files, inputs, &options.lib_paths, name) {
            Ok(found) => {
                let Ok(()) = all.push(found) else {
                    return Err(Stop::Memory);
                };
            }
            Err(stop) => return Err(stop),
        }
    }
    Ok(all)
}
