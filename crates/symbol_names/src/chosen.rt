//! Which sections are chosen.

ghost use Rattle.std.specs.Prelude.{◌≡◌, false, slice_index_or};
ghost use Rattle.symbol_names.specs.Lists.{is_chosen_in, is_live_at};
ghost use Rattle.symbol_names.specs.Kept.{row_flags, rows_of};

use module_view::Place;

/// Which sections of a module are chosen, by their numbers less 1.
#[derive(Drop)]
pub enum ChosenRow {
    /// All of so many.
    All(u32),
    /// Those that a list says.
    Said(Vec<bool>),
}

/// For each module, by its position, which of its sections are chosen. One that is not takes no part in the link.
pub type Chosen = Vec<ChosenRow>;

/// Whether a section is chosen. It has a number above 0.
pub fn is_chosen(chosen: &[ChosenRow], module: u32, section: u32) -> bool
    ensures { result ≡ is_chosen_in (rows_of chosen.now) «module» section }
{
    match chosen.get(module as usize) {
        Some(row) => is_chosen_at(row, section.saturating_sub(1)),
        None => false,
    }
}

/// Whether the section at a place is chosen.
fn is_chosen_at(row: &ChosenRow, place: u32) -> bool
    ensures { result ≡ slice_index_or (row_flags row.now) place false }
{
    match row {
        ChosenRow::All(count) => place < *count,
        ChosenRow::Said(flags) => match flags.get(place as usize) {
            Some(flag) => *flag,
            None => false,
        },
    }
}

/// Whether a definition takes part in the link: its section is chosen, or it stands in none.
pub fn is_live_at(chosen: &[ChosenRow], module: u32, place: Place) -> bool
    ensures { result ≡ is_live_at (rows_of chosen.now) «module» place }
{
    match place {
        Place::Section { section, .. } => is_chosen(chosen, module, section),
        Place::Absolute(_) | Place::Slot | Place::Thunk => true,
    }
}
