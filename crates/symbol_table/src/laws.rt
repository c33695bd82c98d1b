//! Laws of the types, each a function that does nothing.

use crate::table::SymbolTable;
use link_base::is_shared;

/// Tables may be shared by threads and handed from one to another.
pub fn tables_are_shared<'a>() {
    is_shared::<SymbolTable<'a>>()
}
