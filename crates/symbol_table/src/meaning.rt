//! What a name can mean.

ghost use Rattle.std.specs.Prelude.{◌≡◌};

use link_base::Name;

/// What a name means.
#[derive(Drop)]
pub enum Meaning<'a> {
    /// A place in a section of a module, by the module's position, the section's number and an offset.
    Section {
        module: u32,
        section: u32,
        value: u32,
    },
    /// Zeroed memory that modules share, by the module and the symbol of the greatest size.
    Common {
        module: u32,
        symbol: u32,
    },
    /// The entry of the import address table of an import, by its module.
    Slot {
        module: u32,
    },
    /// The code that jumps through it.
    Thunk {
        module: u32,
    },
    /// A pointer to a name that is not imported.
    LocalSlot(Name<'a>),
    /// A number.
    Absolute(u32),
    /// The address that the image is loaded at.
    ImageBase,
}

impl<'a> Meaning<'a> {
    /// The same meaning.
    pub fn again(&self) -> Meaning<'a>
        ensures { result ≡ self.now }
    {
        match self {
            Meaning::Section {
                module,
                section,
                value,
            } => Meaning::Section {
                module: *module,
                section: *section,
                value: *value,
            },
            Meaning::Common { module, symbol } => Meaning::Common {
                module: *module,
                symbol: *symbol,
            },
            Meaning::Slot { module } => Meaning::Slot { module: *module },
            Meaning::Thunk { module } => Meaning::Thunk { module: *module },
            Meaning::LocalSlot(name) => Meaning::LocalSlot(name.again()),
            Meaning::Absolute(value) => Meaning::Absolute(*value),
            Meaning::ImageBase => Meaning::ImageBase,
        }
    }
}

/// Why a name means nothing.
#[derive(Clone, Copy, Debug, PartialEq, Eq)]
pub enum NoMeaning {
    /// Nothing defines it.
    Undefined,
    /// Defaults and alternates lead from it to a name that they lead back to.
    WeakCycle,
}

/// Two definitions of one name, by the positions of their modules.
#[derive(Drop)]
pub struct Clash<'a> {
    pub name: Name<'a>,
    pub first: u32,
    pub second: u32,
}
