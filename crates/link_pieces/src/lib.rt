//! The units of layout of a link: the sections of its modules that come into the image, the commons that names mean, the jumps
//! and local slots that the linker makes, and, once it is known which imports are kept, the tables of imports and exports, the
//! debug directory and the resource tree. It takes modules from `module_view`, says by `comdat` and `symbol_table` what their
//! names mean, and gives pieces to the crates that plan, group and place them. Its contracts promise that each section that is
//! chosen and placed, each common that a name means, and each slot that a link refers to is one piece, in the order of the
//! modules and of their section headers and symbols, and of the bytes of the slots' names, aligned and with its own bytes; and
//! that the piece of a section, of a common or of a slot is found at once. What is kept of them is left to others.
#![tactic(auto)]

mod commons;
mod linker;
mod linker_rows;
mod named;
mod names;
mod piece_index;
mod piece_rows;
mod pieces;
mod slots;
mod tables;

pub use commons::FIRST_COMMON;
pub use names::{LinkNames, check_clash, link_names};
pub use piece_index::PieceIndex;
pub use pieces::{TABLES, pieces_of};
pub use slots::{LocalSlots, note_slot};
pub use tables::push_tables;
