//! What the fields of a link's pieces mean, and where what the command line names stands: of each relocation the place that its
//! symbol means, the entry of the image, what each export stands for, what each local slot points to, and what the loader of a
//! program looks for. It takes what names
//! mean and the pieces from `link_pieces`, has `relocate` judge the fields, and gives fields and what they lead to to the crate that
//! plans a link. Its contracts promise the target of each relocation by the meaning of its symbol, and the first fault in the order of
//! the pieces. What is kept of a link, and where it stands, is left to others.
#![tactic(auto)]

mod edges;
mod entry;
mod export_targets;
mod fixes;
mod judge;
mod loader_places;
mod pdata;
mod places;
mod slots;
mod targets;

pub use entry::EntryPlace;
pub use judge::{JudgedFixes, judge_pieces};
pub use loader_places::LoaderPlaces;
pub use pdata::is_pdata;
pub use places::{NamedPlaces, named_places};
pub use targets::meant_target;
