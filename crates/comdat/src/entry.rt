//! What is kept of a section that goes by a name.

ghost use Rattle.std.specs.Prelude.{◌≡◌, ◌==◌};
ghost use Rattle.coff_aux.specs.AuxRecords.{COMDAT_SELECT_ANY};
ghost use Rattle.comdat.specs.Entries.{entry_at, IsSection};
ghost use Rattle.comdat.specs.Plain.{plain};

use crate::candidate::Candidate;
use coff_aux::aux_records::COMDAT_SELECT_ANY;
use module_view::Module;

/// A COMDAT section that goes by a name. Its size and its body, which are seldom wanted, are left to its module.
#[derive(Clone, Copy)]
pub(crate) struct Entry {
    /// The number of the name.
    pub(crate) number: u32,
    /// The position of its module.
    pub(crate) module: u32,
    /// Its section number in the module, from 1.
    pub(crate) section: u32,
    /// How one of its group is selected.
    pub(crate) selection: u8,
}

impl Entry {
    /// Whether its selection is ANY.
    pub(crate) fn is_any(&self) -> bool
        ensures { result ≡ (self.now.selection == COMDAT_SELECT_ANY) }
    {
        self.selection == COMDAT_SELECT_ANY
    }

    /// The section with its size and its body.
    pub(crate) fn candidate<'a>(&self, modules: &[Module<'a>]) -> Candidate<'a>
        requires { IsSection modules.now self.now }
        ensures { plain result ≡ (entry_at modules.now self.now).candidate }
    {
        let Some(object) = modules[self.module as usize].object() else {
            unreachable!()
        };
        Candidate {
            module: self.module,
            section: self.section,
            selection: self.selection,
            size: object.section_size(self.section),
            body: object.section_body(self.section),
        }
    }
}
