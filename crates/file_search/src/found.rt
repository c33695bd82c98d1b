//! Files that were found, and what a load says of one.

ghost use Rattle.std.specs.Prelude.{◌≡◌, ℕ, None};
ghost use Rattle.link_files.specs.Outside.{FilesView};
ghost use Rattle.input_arena.specs.Loaded.{LoadsFile};
ghost use Rattle.file_search.specs.Reading.{TriesName};

use input_arena::LoadError;
use link_base::{Fault, Name, Stop};

/// A file that was found, by the name under which it is there.
#[derive(Drop)]
pub struct FoundFile<'a> {
    pub file: Name<'a>,
    pub bytes: &'a [u8],
}

/// What the load of a file says: the file, where one of this name is there and was read, and else why not.
pub(crate) fn found_by<'a>(
    name: &'a str,
    loaded: Result<&'a [u8], LoadError>,
) -> Result<Option<FoundFile<'a>>, Stop<'a>>
    ensures { (before_total after_total : ℕ) (before after : FilesView) →
        LoadsFile name.now before_total after_total before after loaded.entry
        → TriesName name.now before_total after_total before after result }
{
    match loaded {
        Ok(bytes) => Ok(Some(FoundFile {
            file: Name::of(name.as_bytes()),
            bytes,
        })),
        Err(LoadError::NotFound) => Ok(None),
        Err(LoadError::TooLarge) => Err(Stop::Fault(Fault::FileTooLarge {
            file: Name::of(name.as_bytes()),
            member: None,
        })),
        Err(LoadError::InputLimit { sum }) => Err(Stop::Fault(Fault::InputLimit { sum })),
        Err(LoadError::Fault) => Err(Stop::Read(Name::of(name.as_bytes()))),
        Err(LoadError::Memory) => Err(Stop::Memory),
    }
}

/// The fault of a file that is nowhere.
pub(crate) fn not_found(name: &str) -> Fault<'_>
    ensures { result ≡ Fault.NotFound name.now None }
{
    Fault::NotFound {
        file: Name::of(name.as_bytes()),
        member: None,
    }
}
