//! The auxiliary records of objects that a link reads: those of weak externals, and those of COMDAT sections, by which one of
//! several is selected; and at which records of an object a symbol starts. It takes objects that were opened, from
//! `coff_object`, and gives what the records say to those that make a module of an object. Its contracts promise that the first
//! fault of a table is found, and that what a section says is what its bytes say. Which of several sections is selected is left
//! to others.
#![tactic(auto)]

pub mod aux_records;
mod comdat;
mod comdats;
mod faults;
mod laws;
mod parents;
mod starts;
mod weaks;

pub use aux_records::{characteristics_in, first_aux, tag_in};
pub use comdat::{Comdat, ComdatRecord, NO_SYMBOL, NotedSymbols};
pub use comdats::{comdat_record, is_comdat, is_section_number, parent_said, section_symbols};
pub use faults::{comdat_fault, is_out_of_order};
pub use laws::circles_come_twice;
pub use starts::{is_start, symbol_starts};
pub use weaks::first_bad_weak;
