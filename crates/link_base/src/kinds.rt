//! The kinds of refusal.

mod database;
mod export;
mod form;
mod image;
mod import;
mod library;
mod object;
mod resource;
mod target;

pub use database::PdbKind;
pub use export::ExportFault;
pub use form::Kind;
pub use image::ImageKind;
pub use import::ImpFault;
pub use library::LibFault;
pub use object::ObjFault;
pub use resource::{ResFault, ResName};
pub use target::{RelocKind, TargetFault};
