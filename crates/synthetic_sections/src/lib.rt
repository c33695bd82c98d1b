//! The sections that the linker makes itself for imports, exports, debuggers and resources, as units of layout: the tables, a
//! jump for each function that is called by its own name, slots that point to what is linked, the debug directory and the
//! resource tree; and which names can stand in the tables. It takes the sizes of the tables, as `import_tables` says them, and
//! what jumps and slots mean, and gives pieces of `section_group` and fields of `relocate` to the crates that plan a link. Its
//! contract promises each piece with its number, its name, its flags, its alignment and its bytes, and each field. Which
//! imports and slots a link has, and the bytes of the tables, are left to others.
#![tactic(auto)]

mod fields;
mod names;
mod pieces;

pub use fields::{slot_field, thunk_field};
pub use names::can_stand;
pub use pieces::{
    DEBUG_DATA, DEBUG_ENTRY, EXPORTS, FIRST_LOCAL_SLOT, FIRST_THUNK, RESOURCES, SLOTS,
    push_debug_directory, push_export_table, push_resource_tree, push_slot, push_tables,
    push_thunk,
};
