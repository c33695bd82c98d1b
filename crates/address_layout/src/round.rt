//! Numbers rounded up, and numbers of 32 bits.

ghost use Rattle.std.specs.Prelude.{◌≡◌, ◌+◌, ◌^◌, ◌<◌, ◌≤◌};
ghost use Rattle.address_layout.specs.Rounded.{rounded, saturated};

/// The least multiple of a step at or above a value.
#[tactic(auto, unfolding(crate::specs::Rounded::rounded))]
pub(crate) fn round_up(value: u64, step: u64) -> u64
    requires some { 0 < step }
    requires fits { value + step < 2 ^ 64 }
    ensures { result ≡ rounded step value }
{
    (value + (step - 1)) / step * step
}

/// A value as 32 bits hold it, or the greatest that they hold. What does not fit is in an image that is refused for its
/// size.
pub(crate) fn saturating_u32(value: u64) -> u32
    ensures { result ≡ saturated value }
{
    value.min(u64::from(u32::MAX)) as u32
}
