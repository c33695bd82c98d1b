//! The names of the modules of a link, as a PDB lists them.

ghost use Rattle.std.specs.Prelude.{◌≡◌, IfOk};
ghost use Rattle.debug_rows.specs.ModuleNames.{linker_module, module_name, module_names_of};

use link_base::{Memory, Name};
use module_view::{Module, Origin};
use pdb_dbi::ModuleName;
use std::alloc::Global;

/// The names of the modules, in their order, and behind them that of the module of what the linker makes. A member of a library
/// goes by its own name and that of the library, and an object by its name twice. (LLVM, "The PDB DBI (Debug Info) Stream",
/// "Module Info Substream".)
pub fn module_names<'a>(
    alloc: Global,
    modules: &[Module<'a>],
) -> Result<Vec<ModuleName<'a>>, Memory>
    ensures { IfOk result (λ names. names.items ≡ module_names_of modules.now) }
{
    let mut names = Vec::with_capacity(alloc, modules.len() + 1)?;
    for module in modules {
        names.push(module_name(module))?;
    }
    names.push(linker_module())?;
    Ok(names)
}

/// The name of a module.
fn module_name<'a>(module: &Module<'a>) -> ModuleName<'a>
    ensures { result ≡ module_name «module».now }
{
    let Origin { file, member } = module.origin();
    match member {
        Some(member) => ModuleName { name: member, file },
        None => ModuleName {
            name: file.again(),
            file,
        },
    }
}

/// That of what the linker makes, which is in no file.
fn linker_module<'a>() -> ModuleName<'a>
    ensures { result ≡ linker_module }
{
    ModuleName {
        name: Name::of(b"* Linker *"),
        file: Name::of(b""),
    }
}
