//! What an image exports.

use link_base::Name;

/// What a mapped image exports by a name or an ordinal.
#[derive(Drop)]
pub enum Exported<'m> {
    /// What stands at this RVA.
    Address(u32),
    /// What another image exports: the text of a forwarder, as `DLL.name`.
    Forward(Name<'m>),
    /// Nothing: the directory has no such entry.
    Missing,
}
