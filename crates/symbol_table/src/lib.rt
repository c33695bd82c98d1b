//! The names that modules define, share, say weakly and ask for, and what each means. It takes modules in the order of
//! joining, from `module_view`, and gives open names to the search of libraries and meanings to the crates that plan a link.
//! Its contracts promise that the table is the names and the alternates that the command line gives and the list of the
//! modules that were added: which names are asked for and not provided; that a name means its first live definition, or
//! else its greatest common, what the linker means by it, what its first weak external does by default, or, where it has
//! none, what the name does that its first alternate leads to, along chains; and the first clash of two live definitions.
//! Names are looked up by hash, of which nothing is claimed.
#![tactic(auto)]

mod asked;
mod chains;
mod first_alternate;
mod first_weak;
mod greatest;
mod laws;
mod link;
mod linker_names;
mod lives;
mod meaning;
mod resolved;
mod settled;
mod table;

pub use laws::tables_are_shared;
pub use meaning::{Clash, Meaning, NoMeaning};
pub use resolved::ResolvedNames;
pub use symbol_names::{Chosen, ChosenRow, is_chosen};
pub use table::SymbolTable;
