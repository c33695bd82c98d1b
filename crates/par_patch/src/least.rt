//! The least of the values that do not fit.

ghost use Rattle.std.specs.Prelude.{◌≡◌};
ghost use Rattle.par_patch.specs.Slices.{comes_first, least_of};

use crate::job::JobRange;

/// Of two answers the refusal of the least module and section; of two that refuse the same section the first.
pub(crate) fn least_of(
    first: Result<(), JobRange>,
    second: Result<(), JobRange>,
) -> Result<(), JobRange>
    ensures { result ≡ least_of first second }
{
    match first {
        Ok(()) => second,
        Err(range) => match second {
            Ok(()) => Err(range),
            Err(other) => {
                if comes_first(&other, &range) {
                    Err(other)
                } else {
                    Err(range)
                }
            }
        },
    }
}

/// Whether a range is that of a lesser module, or in the same module of a lesser section.
fn comes_first(range: &JobRange, other: &JobRange) -> bool
    ensures { result ≡ comes_first range.now other.now }
{
    range.module < other.module || range.module == other.module && range.section < other.section
}
