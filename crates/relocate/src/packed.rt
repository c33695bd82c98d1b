//! Relocations and what their symbols mean, as lists keep them.

ghost use Rattle.std.specs.Prelude.{◌≡◌, Some, Ok, is_none, IfOk};
ghost use Rattle.relocate.specs.Packed.{meant};

use crate::fix::{Fix, Target};
use link_base::TargetFault;
use std::alloc::{AllocError, Global};
use std::marker::Model;

/// What a symbol means to its relocations, as `Fix::target` has it, in 12 bytes and not 20.
#[derive(Drop)]
pub struct PackedTarget {
    first: u32,
    second: u32,
    choice: Choice,
}

/// A relocation in 20 bytes, where a `Fix` has 32: a list can hold millions.
#[derive(Drop)]
pub struct PackedFix {
    index: u32,
    at: u32,
    first: u32,
    second: u32,
    kind: u16,
    choice: Choice,
}

/// What a symbol means, or why it has no address: the choices of `Fix::target` side by side. A piece and the offset in it, and a
/// number, stand beside.
#[derive(Clone, Copy)]
pub(crate) enum Choice {
    Nothing,
    Piece,
    Absolute,
    ImageBase,
    Fault(TargetFault),
}

impl Model for PackedTarget {
    ghost use Rattle.std.specs.Prelude.{Option, Result};
    ghost use Rattle.link_base.specs.declared.kinds.target.TargetFault.{TargetFault};
    ghost use Rattle.relocate.specs.declared.fix.Target.{Target};

    ghost Value = { Option (Result Target TargetFault) };

    ghost use Rattle.relocate.specs.Packed.{meant};

    ghost view = { λ packed. meant packed.choice packed.first packed.second };
}

impl Model for PackedFix {
    ghost use Rattle.relocate.specs.declared.fix.Fix.{Fix};

    ghost Value = { Fix };

    ghost use Rattle.relocate.specs.Packed.{meant};

    ghost view = { λ packed. record { index = packed.index; at = packed.at; kind = packed.kind; target = meant packed.choice packed.first packed.second } };
}

impl PackedTarget {
    /// What a symbol means, packed.
    pub fn new(target: Option<Result<Target, TargetFault>>) -> PackedTarget
        ensures { result ≡ target }
    {
        let (choice, first, second) = match target {
            None => (Choice::Nothing, 0, 0),
            Some(Ok(Target::Piece { piece, value })) => (Choice::Piece, piece, value),
            Some(Ok(Target::Absolute(number))) => (Choice::Absolute, number, 0),
            Some(Ok(Target::ImageBase)) => (Choice::ImageBase, 0, 0),
            Some(Err(fault)) => (Choice::Fault(fault), 0, 0),
        };
        PackedTarget {
            first,
            second,
            choice,
        }
    }

    /// The same once more.
    pub fn copied(&self) -> PackedTarget
        ensures { result ≡ self.now }
    {
        PackedTarget {
            first: self.first,
            second: self.second,
            choice: self.choice,
        }
    }

    /// Whether there is no symbol.
    pub fn is_none(&self) -> bool
        ensures { result ≡ is_none self.now }
    {
        match self.choice {
            Choice::Nothing => true,
            _ => false,
        }
    }
}

impl PackedFix {
    /// A relocation, packed.
    pub fn new(fix: Fix) -> PackedFix
        ensures { result ≡ fix }
    {
        PackedFix::of(fix.index, fix.at, fix.kind, &PackedTarget::new(fix.target))
    }

    /// The relocation of an index, with a field at an offset, of a type, whose symbol means this.
    pub fn of(index: u32, at: u32, kind: u16, target: &PackedTarget) -> PackedFix
        ensures { result ≡ record { index = index; at = at; kind = kind; target = target.now } }
    {
        PackedFix {
            index,
            at,
            first: target.first,
            second: target.second,
            kind,
            choice: target.choice,
        }
    }

    /// Gives it another target.
    pub(crate) fn set_target(&mut self, target: Target)
        ensures { self.new ≡ record self.old { target = Some (Ok target) } }
    {
        let packed = PackedTarget::new(Some(Ok(target)));
        self.choice = packed.choice;
        self.first = packed.first;
        self.second = packed.second;
    }

    /// The relocation that was packed.
    pub fn unpacked(&self) -> Fix
        ensures { result ≡ self.now }
    {
        Fix {
            index: self.index,
            at: self.at,
            kind: self.kind,
            target: target_of(self.choice, self.first, self.second),
        }
    }
}

/// What a choice and the numbers beside it mean.
fn target_of(choice: Choice, first: u32, second: u32) -> Option<Result<Target, TargetFault>>
    ensures { result ≡ meant choice first second }
{
    match choice {
        Choice::Nothing => None,
        Choice::Piece => Some(Ok(Target::Piece {
            piece: first,
            value: second,
        })),
        Choice::Absolute => Some(Ok(Target::Absolute(first))),
        Choice::ImageBase => Some(Ok(Target::ImageBase)),
        Choice::Fault(fault) => Some(Err(fault)),
    }
}

/// Relocations, packed.
pub(crate) fn packed(alloc: Global, fixes: &[Fix]) -> Result<Vec<PackedFix>, AllocError>
    ensures { IfOk result (λ packed. packed.items ≡ fixes.now) }
{
    let mut packed = Vec::with_capacity(alloc, fixes.len())?;
    for fix in fixes {
        packed.push(PackedFix::new(*fix))?;
    }
    Ok(packed)
}
