//! The fields of a section's relocations: judged before anything is laid out, and patched in the section's bytes behind
//! it. It takes fixes, each a relocation with what its symbol means, and gives fixups, which are the fields in ascending
//! order; it patches them by a layout of `address_layout`.
//! Its contracts promise the first fault of the written order, that the fields lie in the section's bytes and share none,
//! and that each is left with the value of its type and every other byte as it was. What a symbol means, and which
//! sections are judged, is left to the crates above.
#![tactic(auto)]

mod any_order;
mod ascending;
mod checking;
mod error;
mod fix;
mod fixups;
mod judge;
mod laws;
mod number;
mod packed;
mod parts;
mod patching;
mod place;
mod range;
mod redirect;
mod target;
mod value;
mod writing;

pub use checking::{check, check_list};
pub use error::FieldError;
pub use fix::{Fix, Target};
pub use fixups::Fixups;
pub use laws::{
    based_fields_move_with_the_base, fixups_are_shared, patches_in_any_order,
    patching_keeps_the_length, redirected_fields_are_fields, values_stay_at_other_bases,
};
pub use link_base::{RelocKind, TargetFault};
pub use packed::{PackedFix, PackedTarget};
pub use patching::patch;
pub use range::RelocRange;
pub use redirect::{place_of, redirected};
pub use target::is_based;
