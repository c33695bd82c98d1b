//! The imports of a link: its short imports that are kept as rows of import tables, the places of their slots, and the jumps that
//! the linker makes for imports of code. It takes modules from `module_view`, and for each whether it is kept, has `import_tables`
//! say the sizes of the tables, and gives jumps that `synthetic_sections` makes to the crates that plan a link. Its contracts
//! promise a row for each module that is a short import and is kept, in their order, the offset of each one's slot, and a jump
//! for each import of code. Which modules join and are kept, and the tables themselves, are left to others.
#![tactic(auto)]

mod imports;
mod laws;
mod pieces;

pub use imports::{LinkImports, link_imports};
pub use laws::slots_of_imports_are_those_in_the_directory;
pub use pieces::push_thunks;
