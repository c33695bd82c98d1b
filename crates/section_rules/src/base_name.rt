//! Sections by their base names.

ghost use Rattle.std.specs.Prelude.{◌≡◌, false};
ghost use Rattle.link_base.specs.NameText.{same_name, begins_import};
ghost use Rattle.link_base.specs.SectionName.{base_name};

use link_base::Name;

/// Whether this is the base name of a section. A name is cut only where it begins so.
pub fn has_base_name(name: &Name<'_>, base: &[u8]) -> bool
    requires { begins_import base.now ≡ false }
    ensures { result ≡ same_name (base_name name.now) base.now }
{
    if name.is_import() {
        return false;
    }
    if !name.rest().starts_with(base) {
        return false;
    }
    name.base_name() == Name::of(base)
}
