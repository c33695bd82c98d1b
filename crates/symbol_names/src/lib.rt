//! Names by numbers. It takes modules from `module_view`, and the names and alternates of the command line, and gives each name
//! a number; to `symbol_table` it gives the lists of each module with their names so, what the module asks for, and the number
//! of each symbol's name by its record, flags of names by their numbers, and to all crates above it which sections are chosen.
//! Its contracts promise that what is noted of a module is what it defines, shares, says weakly, asks for and gives alternates
//! for, that a number once given stays that of its name, that what is left of a name behind the import prefix gets one too, and
//! what a weak external means by default. What names mean is left to `symbol_table`. Names are looked up by hash, of which
//! nothing is claimed.
#![tactic(auto)]

mod alternates;
mod chosen;
mod exports;
pub mod flags;
mod given;
mod interning;
mod lists;
mod noted;
mod records;
mod references;
mod rests;
mod weak_default;

pub use chosen::{Chosen, ChosenRow, is_chosen, is_live_at};
pub use exports::{forwarder, internal_name};
pub use given::{GivenNames, given_names};
pub use interning::name_at;
pub use lists::note_lists;
pub use noted::{
    ModuleNames, NotedAlternate, NotedAsked, NotedCommon, NotedDefault, NotedDefinition,
    NotedLists, NotedWeak,
};
pub use records::noted_number;
pub use references::{asked_name, note_words};
pub use rests::note_rests;
