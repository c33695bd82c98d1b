//! The parts of a section's name (PE Format, "Grouped Sections (Object Only)").

ghost use Rattle.std.specs.Prelude.{◌≡◌};
ghost use Rattle.link_base.specs.SectionName.{base_name, suffix};

use crate::name::Name;
use memchr::memchr;

impl<'a> Name<'a> {
    /// What stands before the first `$` of a section's name, and what stands after it: the base name, by which sections
    /// are put together, and the suffix, by which they are ordered.
    pub fn base_and_suffix(&self) -> (Name<'a>, Name<'a>)
        ensures base { result.0 ≡ base_name self.now }
        ensures suffix { result.1 ≡ suffix self.now }
    {
        let rest = self.rest();
        match memchr(b'$', rest) {
            None => (self.again(), Name::of(b"")),
            Some(at) => {
                let (front, back) = rest.split_at(at);
                let (_, suffix) = back.split_at(1);
                let base = if self.is_import() {
                    Name::import(front)
                } else {
                    Name::of(front)
                };
                (base, Name::of(suffix))
            }
        }
    }

    /// The base name of a section's name.
    pub fn base_name(&self) -> Name<'a>
        ensures { result ≡ base_name self.now }
    {
        let (base, _) = self.base_and_suffix();
        base
    }
}
