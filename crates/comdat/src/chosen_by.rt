//! By what sections are chosen.

ghost use Rattle.std.specs.Prelude.{◌≡◌};
ghost use Rattle.comdat.specs.ChosenBy.{is_itself, is_group, parent_by, by_choice};

use coff_aux::is_section_number;
use module_view::ComdatChoice;

/// By what a section is chosen.
#[derive(Clone, Copy)]
pub(crate) enum ChosenBy {
    /// In any case: it is no COMDAT section, or has neither a leader nor a parent.
    Itself,
    /// As one of those that go by the name of its leader.
    Group,
    /// With the section of this number, its parent.
    Parent(u32),
}

impl ChosenBy {
    /// By what a section is chosen that says this of itself.
    pub(crate) fn of(choice: &Option<ComdatChoice>) -> ChosenBy
        ensures { result ≡ by_choice choice.now }
    {
        let Some(choice) = choice else {
            return ChosenBy::Itself;
        };
        match (choice.parent, choice.leader) {
            (Some(parent), _) => ChosenBy::Parent(parent),
            (None, Some(_)) => ChosenBy::Group,
            (None, None) => ChosenBy::Itself,
        }
    }

    /// Whether it is chosen in any case.
    pub(crate) fn is_itself(self) -> bool
        ensures { result ≡ is_itself self }
    {
        matches!(self, ChosenBy::Itself)
    }

    /// Whether it goes by a name.
    pub(crate) fn is_group(self) -> bool
        ensures { result ≡ is_group self }
    {
        matches!(self, ChosenBy::Group)
    }

    /// Its parent among this many sections, 0 where it has none.
    pub(crate) fn parent(self, count: u32) -> u32
        ensures { result ≡ parent_by count self }
    {
        match self {
            ChosenBy::Parent(parent) if is_section_number(count, parent) => parent,
            _ => 0,
        }
    }
}
