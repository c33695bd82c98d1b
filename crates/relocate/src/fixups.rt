//! The fields of a section, judged.

ghost use Rattle.std.specs.Prelude.{◌≡◌, ◌==◌, [], length};

use crate::packed::PackedFix;
use std::alloc::Global;
use std::marker::Model;

/// The relocations of a section that have a field, judged and in ascending order of their fields.
#[derive(Drop)]
pub struct Fixups {
    pub(crate) fixes: Vec<PackedFix>,
}

impl Fixups {
    /// Those of a section without relocations. It allocates nothing.
    pub fn none(alloc: Global) -> Fixups
        ensures { result ≡ [] }
    {
        Fixups {
            fixes: Vec::new(alloc),
        }
    }

    /// Whether there is no relocation.
    pub fn is_empty(&self) -> bool
        ensures { result ≡ (length self.now == 0) }
    {
        self.fixes.len() == 0
    }

    /// The relocations, in ascending order of their fields.
    pub fn fixes(&self) -> &[PackedFix]
        ensures { result.now ≡ self.now }
    {
        &self.fixes
    }
}

impl Model for Fixups {
    ghost use Rattle.std.specs.Prelude.{List};
    ghost use Rattle.relocate.specs.declared.fix.Fix.{Fix};

    ghost Value = { List Fix };

    ghost view = { λ fixups. fixups.fixes.items };
}
