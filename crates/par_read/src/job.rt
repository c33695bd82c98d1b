//! One file that is to be opened.

ghost use Rattle.std.specs.Prelude.{◌≡◌, ◌<◌, ◌^◌, ◌-◌, length};
ghost use Rattle.par_read.specs.Opened.{IsOpenedAs};

use link_base::Name;
use module_view::{Module, ModuleError, Origin, open_module};
use std::alloc::Global;

/// A file, or a member of one, that is to be opened as a module.
#[derive(Drop)]
pub struct Job<'a> {
    pub origin: Origin<'a>,
    pub bytes: &'a [u8],
}

/// What opening the file of a job gives: a module, or why there is none.
pub type Answer<'a> = Result<Module<'a>, ModuleError>;

/// Opens the file of a job.
pub fn open_job<'a>(alloc: Global, job: &Job<'a>) -> Answer<'a>
    requires { length job.now.bytes.now < 2 ^ 32 - 1 }
    ensures { IsOpenedAs job.now result }
{
    let origin = Origin {
        file: job.origin.file.again(),
        member: again(&job.origin.member),
    };
    open_module(alloc, origin, job.bytes)
}

/// An equal name of a member, where there is one.
fn again<'a>(member: &Option<Name<'a>>) -> Option<Name<'a>>
    ensures { result ≡ member.now }
{
    match member {
        Some(member) => Some(member.again()),
        None => None,
    }
}
