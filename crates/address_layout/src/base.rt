//! The bases at which an image may stand.

ghost use Rattle.std.specs.Prelude.{◌≡◌, ◌+◌, nat_le, true, OnOk, IfErr};
ghost use Rattle.address_layout.specs.PermittedBase.{is_permitted, IsBaseRefusal};

use crate::layout::{Layout, LayoutError};

/// What a base is a multiple of.
const BASE_ALIGNMENT: u64 = 0x1_0000;

/// The end of the addresses that fit a signed number of 32 bits.
const LOW_LIMIT: u64 = 0x8000_0000;

/// The end of the addresses of programs.
const HIGH_LIMIT: u64 = 0x8000_0000_0000;

/// What is said of an image's base.
#[derive(Clone, Copy)]
pub struct BaseRule {
    /// The base that the image prefers.
    pub base: u64,
    /// Whether the image can stand at no other base.
    pub fixed: bool,
    /// Whether the image may stand above 2 GiB.
    pub large: bool,
}

/// Whether an image of a size may stand at a base: at a multiple of 64 KiB, with its end at most at 128 TiB, or at 2 GiB
/// where it may not stand above; an image that is fixed at its own base alone.
pub fn permitted(rule: &BaseRule, image: u32, base: u64) -> bool
    ensures { result ≡ is_permitted rule.now image base }
{
    let limit = if rule.large { HIGH_LIMIT } else { LOW_LIMIT };
    base % BASE_ALIGNMENT == 0
        && ends_within(base, image, limit)
        && (!rule.fixed || base == rule.base)
}

fn ends_within(base: u64, image: u32, limit: u64) -> bool
    ensures { result ≡ nat_le (base + image) limit }
{
    base <= limit && u64::from(image) <= limit - base
}

/// Whether the layout may stand at the base that it prefers.
///
/// # Errors
///
/// `BaseRange` with that base where it is not permitted, and nothing else.
pub fn check_base(rule: &BaseRule, layout: &Layout) -> Result<(), LayoutError>
    ensures accepted { OnOk result (is_permitted rule.now layout.now.image rule.now.base ≡ true) }
    ensures refused { IfErr result (IsBaseRefusal rule.now layout.now.image) }
{
    if permitted(rule, layout.image, rule.base) {
        Ok(())
    } else {
        Err(LayoutError::BaseRange(rule.base))
    }
}
