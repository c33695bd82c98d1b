//! Laws of the types, each a function that does nothing.

use crate::input_module::Module;
use link_base::is_shared;

/// Modules may be shared by threads and handed from one to another.
pub fn modules_are_shared<'a>() {
    is_shared::<Module<'a>>()
}
