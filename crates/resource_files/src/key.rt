//! What a resource is known by among others.

ghost use Rattle.std.specs.Prelude.{◌≡◌};
ghost use Rattle.res_merge.specs.Entries.{key_of, entry_of};
ghost use Rattle.res_merge.specs.Found.{IsSmallKey};
ghost use Rattle.resource_files.specs.Parts.{part_of, known_by, IsSmall};

use link_base::{Name, ResName};
use res_merge::Resource;

/// A type or a name.
#[derive(PartialEq, Eq, Hash, Drop)]
pub(crate) enum KeyPart<'a> {
    Number(u16),
    Text(Name<'a>),
}

impl<'a> KeyPart<'a> {
    fn of(name: ResName<'a>) -> KeyPart<'a>
        ensures is { result ≡ part_of (key_of name.entry) }
        ensures small { IsSmallKey (key_of name.entry) }
    {
        match name {
            ResName::Number(number) => KeyPart::Number(number),
            ResName::Text(units) => KeyPart::Text(Name::of(units)),
        }
    }
}

/// The type, the name and the language of a resource.
#[derive(PartialEq, Eq, Hash, Drop)]
pub(crate) struct ResourceKey<'a> {
    kind: KeyPart<'a>,
    name: KeyPart<'a>,
    language: u16,
}

impl<'a> ResourceKey<'a> {
    /// Those of a resource.
    pub(crate) fn of(resource: Resource<'a>) -> ResourceKey<'a>
        ensures is { result ≡ known_by (entry_of resource.entry) }
        ensures small { IsSmall (entry_of resource.entry) }
    {
        ResourceKey {
            kind: KeyPart::of(resource.kind),
            name: KeyPart::of(resource.name),
            language: resource.language,
        }
    }
}
