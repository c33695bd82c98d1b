//! What a link will hold, decided before a byte of the image is made: the modules, what their names mean, what is kept of the pieces
//! of the image with their fields, and the place of the entry. It has `lib_search` read and join the modules, `link_fields` say what fields
//! mean and `reach` what a path comes to, and gives the plan to `link_image`. The contract promises the plan that the definitions give,
//! or the first fault of the stages from mismatch to fields. Places, bytes and values are left to `link_image`.
#![tactic(auto)]

mod entry;
mod kept_fields;
mod laid;
mod meanings;
mod mismatch;
mod planning;
mod publics;
mod references;

pub use planning::{LinkPlan, plan};
