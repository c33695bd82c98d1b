//! Chooses COMDAT sections: of the sections of several modules that go by one name, the one that is linked. It takes what
//! each section says of itself, and the numbers of names, so that none is read or hashed again, and tells the crates that
//! resolve names and lay out which sections are chosen.
//! Its contracts promise that the choice is what a table of cases on the whole group says, and that a group is refused
//! exactly where no case holds, at the first section that makes it so. What names mean is left to others. `choose` takes
//! no memory.
#![tactic(auto)]

mod candidate;
mod chains;
mod choice;
mod chosen_by;
mod ends;
mod entry;
mod error;
mod firsts;
mod groups;
mod lists;
mod numbering;
mod rows;
mod sections;
mod selection;

pub use candidate::Candidate;
pub use choice::{Conflict, choose};
pub use ends::section_ends;
pub use error::ChooseError;
pub use selection::choose_all;
