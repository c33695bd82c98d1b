//! The options of a link, by their names.

ghost use Rattle.std.specs.Prelude.{◌≡◌};
ghost use Rattle.link_words.specs.Known.{known};

use directives::lookup;

/// An option of the table. `Shared` are those whose values directives have too, and `Ignored` those that
/// are taken with the value NO alone and change nothing.
#[derive(Clone, Copy)]
pub(crate) enum Known {
    Shared,
    LibPath,
    NoDefaultLib,
    Debug,
    Dll,
    NoEntry,
    DynamicBase,
    HighEntropyVa,
    NxCompat,
    LargeAddressAware,
    Fixed,
    Base,
    Entry,
    Heap,
    Stack,
    Map,
    ImpLib,
    Opt,
    Out,
    Pdb,
    Subsystem,
    TimeStamp,
    Version,
    Machine,
    NoLogo,
    Ignored,
}

const OPTIONS: [(&[u8], Known); 31] = [
    (b"ALTERNATENAME", Known::Shared),
    (b"DEFAULTLIB", Known::Shared),
    (b"EXPORT", Known::Shared),
    (b"INCLUDE", Known::Shared),
    (b"MERGE", Known::Shared),
    (b"LIBPATH", Known::LibPath),
    (b"NODEFAULTLIB", Known::NoDefaultLib),
    (b"DEBUG", Known::Debug),
    (b"DLL", Known::Dll),
    (b"NOENTRY", Known::NoEntry),
    (b"DYNAMICBASE", Known::DynamicBase),
    (b"HIGHENTROPYVA", Known::HighEntropyVa),
    (b"NXCOMPAT", Known::NxCompat),
    (b"LARGEADDRESSAWARE", Known::LargeAddressAware),
    (b"FIXED", Known::Fixed),
    (b"BASE", Known::Base),
    (b"ENTRY", Known::Entry),
    (b"HEAP", Known::Heap),
    (b"STACK", Known::Stack),
    (b"MAP", Known::Map),
    (b"IMPLIB", Known::ImpLib),
    (b"OPT", Known::Opt),
    (b"OUT", Known::Out),
    (b"PDB", Known::Pdb),
    (b"SUBSYSTEM", Known::Subsystem),
    (b"TIMESTAMP", Known::TimeStamp),
    (b"VERSION", Known::Version),
    (b"MACHINE", Known::Machine),
    (b"NOLOGO", Known::NoLogo),
    (b"INCREMENTAL", Known::Ignored),
    (b"MANIFEST", Known::Ignored),
];

/// The option of this name, in either case of ASCII letters.
#[tactic(auto, unfolding(crate::specs::Known::known))]
pub(crate) fn option_named(name: &[u8]) -> Option<Known>
    ensures { result ≡ known name.now }
{
    lookup(&OPTIONS, name)
}
