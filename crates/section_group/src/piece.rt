//! What is laid out, and what it is laid out in.

use link_base::{Memory, Name};
use std::alloc::AllocError;

/// A unit of layout: a section of an object, a common, or a section that the linker makes.
#[derive(Drop)]
pub struct Piece<'a> {
    /// The position of its module in the order of joining.
    pub module: u32,
    /// Its number in the module, which no other piece of the module has.
    pub number: u32,
    /// The whole name, with the part behind a `$`.
    pub name: Name<'a>,
    /// The section flags (PE Format, "Section Flags").
    pub flags: u32,
    /// Its size in memory.
    pub size: u32,
    /// Its alignment in bytes.
    pub align: u32,
    /// Its bytes, where it has any in the file.
    pub body: Option<&'a [u8]>,
    /// Whether it is initialised.
    pub init: bool,
    /// Whether something names it, so that it has an address even without bytes.
    pub named: bool,
}

/// A section of the image, with its pieces in order, each by its index.
#[derive(Drop)]
pub struct OutSection<'a> {
    /// The whole name.
    pub name: Name<'a>,
    /// The flags of the section header.
    pub flags: u32,
    /// The pieces in the order of their places.
    pub pieces: Vec<u32>,
}

/// Why pieces are not put into sections.
#[derive(Drop)]
pub enum GroupError<'a> {
    /// The first merge that contradicts an earlier one, leads back to its start, or names a section that is not
    /// merged. The name is its left one.
    BadMerge(Name<'a>),
    /// Want of memory.
    Memory,
}

impl<'a> From<AllocError> for GroupError<'a> {
    ghost use Rattle.std.specs.Prelude.{◌≡◌};
    ghost use Rattle.section_group.specs.declared.piece.GroupError.TheVariants.{Memory};

    ghost from_gives = { λ _ e. e ≡ Memory };

    fn from(_error: AllocError) -> GroupError<'a> {
        GroupError::Memory
    }
}

impl<'a> From<Memory> for GroupError<'a> {
    ghost use Rattle.std.specs.Prelude.{◌≡◌};
    ghost use Rattle.section_group.specs.declared.piece.GroupError.TheVariants.{Memory};

    ghost from_gives = { λ _ e. e ≡ Memory };

    fn from(_error: Memory) -> GroupError<'a> {
        GroupError::Memory
    }
}
