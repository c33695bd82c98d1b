//! The fields of what the linker makes for imports.

ghost use Rattle.std.specs.Prelude.{◌≡◌};
ghost use Rattle.synthetic_sections.specs.LinkerFields.{thunk_field, slot_field};

use link_base::TargetFault;
use link_base::pe_format::{REL_AMD64_ADDR64, REL_AMD64_REL32};
use relocate::{Fix, Target};

/// The field of a jump through this slot (PE Format, "Type Indicators", x64 Processors).
pub fn thunk_field(meant: Result<Target, TargetFault>) -> Fix
    ensures { result ≡ thunk_field meant }
{
    Fix {
        index: 0,
        at: 2,
        kind: REL_AMD64_REL32,
        target: Some(meant),
    }
}

/// The field of a slot that points to this.
pub fn slot_field(meant: Result<Target, TargetFault>) -> Fix
    ensures { result ≡ slot_field meant }
{
    Fix {
        index: 0,
        at: 0,
        kind: REL_AMD64_ADDR64,
        target: Some(meant),
    }
}
