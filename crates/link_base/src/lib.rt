//! What every crate of the linker stands on: names, fields of bytes and decimal numbers, the numbers of the PE format,
//! the limits, and the refusals of a link. It takes bytes and gives numbers and texts. Its contracts promise that a field
//! or a text is there exactly where it fits, and that a name is its list of bytes. What a file means is left to the crates
//! above, and the lines of refusals to `diagnostics`.
#![tactic(auto)]

mod decimal;
mod fault;
mod field;
mod kinds;
mod known_field;
mod laws;
mod limits;
mod memory;
mod name;
mod numbers;
pub mod pe_format;
mod section_name;
mod stop;

pub use decimal::decimal_number;
pub use fault::Fault;
pub use field::{cstr, field_u16, field_u32, field_u64};
pub use kinds::{
    ExportFault, ImageKind, ImpFault, Kind, LibFault, ObjFault, PdbKind, RelocKind, ResFault,
    ResName, TargetFault,
};
pub use known_field::{slice_in, u16_in, u32_in, u64_in};
pub use laws::{is_shared, limits_of_the_linker, names_are_shared, numbers_of_the_format};
pub use limits::{FILE_LIMIT, IMAGE_LIMIT, INPUT_LIMIT, MODULE_LIMIT, NAME_LIMIT, SECTION_LIMIT};
pub use memory::Memory;
pub use name::Name;
pub use numbers::{LeNumber, push_fields};
pub use stop::{Refusal, Stop};
