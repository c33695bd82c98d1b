//! A file or a member that was opened joins as a module.

ghost use Rattle.std.specs.Prelude.{◌≡◌, ◌<◌, length, None, Some, IfOk, OnOk, IfErr};
ghost use Rattle.std.specs.List.{list_any};
ghost use Rattle.link_base.specs.Limits.{MODULE_LIMIT as most_modules};
ghost use Rattle.link_base.specs.Refusals.{RefusesFor};
ghost use Rattle.module_view.specs.ModuleParts.{view_of};
ghost use Rattle.par_read.specs.Opened.{IsOpenedAs};
ghost use Rattle.par_read.specs.Joining.{module_fault, brings_resources, joining_fault};

use crate::job::{Answer, Job};
use link_base::{Fault, Kind, MODULE_LIMIT, Name, Refusal};
use module_view::{Module, ModuleError};

/// What the opening of a file or a member gave joins as a module after these. One that did not open is refused, one that brings
/// resources where one of these does or a resource file was opened, and one too many.
pub fn join_opened<'a>(
    answer: Answer<'a>,
    job: &Job<'a>,
    merges: bool,
    modules: &[Module<'a>],
) -> Result<Module<'a>, Refusal<'a>>
    requires { IsOpenedAs job.now answer }
    ensures opened { IfOk result (λ opened. opened ≡ view_of job.now.origin job.now.bytes.now) }
    ensures accepted { OnOk result (joining_fault job.now.origin.file job.now.origin.member job.now.bytes.now merges modules.now ≡ None) }
    ensures few { OnOk result (length modules.now < most_modules) }
    ensures refused { IfErr result (RefusesFor (joining_fault job.now.origin.file job.now.origin.member job.now.bytes.now merges modules.now)) }
{
    let file = job.origin.file.again();
    let member = again(&job.origin.member);
    match answer {
        Ok(module) => {
            if module.has_resources() && (merges || bring_resources(modules)) {
                return Err(Refusal::Fault(Fault::Unsupported {
                    file,
                    member,
                    kind: Kind::SecondResource,
                }));
            }
            if modules.len() >= MODULE_LIMIT {
                return Err(Refusal::Fault(Fault::InputLimit {
                    sum: MODULE_LIMIT as u64 + 1,
                }));
            }
            Ok(module)
        }
        Err(error) => Err(refusal_of(file, member, error)),
    }
}

/// Whether one of these modules has a section of resources.
fn bring_resources(modules: &[Module<'_>]) -> bool
    ensures { result ≡ list_any brings_resources modules.now }
{
    modules.iter().any(|module| module.has_resources())
}

/// The same name, where there is one.
fn again<'a>(name: &Option<Name<'a>>) -> Option<Name<'a>>
    ensures { result ≡ name.now }
{
    match name {
        Some(name) => Some(name.again()),
        None => None,
    }
}

/// What an error of opening says of a file, or of a member of it.
fn refusal_of<'a>(file: Name<'a>, member: Option<Name<'a>>, error: ModuleError) -> Refusal<'a>
    ensures { RefusesFor (module_fault file.entry member.entry (Some error)) result }
{
    match error {
        ModuleError::Object(error) => Refusal::Fault(Fault::BadObject {
            file,
            member,
            kind: error.kind,
            index: error.index,
        }),
        ModuleError::Import(kind) => Refusal::Fault(Fault::BadImport { file, member, kind }),
        ModuleError::Directive { at } => Refusal::Fault(Fault::BadDirective { file, member, at }),
        ModuleError::Unsupported(kind) => Refusal::Fault(Fault::Unsupported { file, member, kind }),
        ModuleError::Memory => Refusal::Memory,
    }
}
