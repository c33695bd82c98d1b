//! Why an object is refused.

use link_base::ObjFault;

/// A refusal of an object, with the place of the fault: a section (from 1), a symbol record (from 0), or 0. A
/// symbol whose name is missing is counted after the sections: its record and the number of sections together.
#[derive(Clone, Copy, Debug, PartialEq, Eq)]
pub struct ObjError {
    pub kind: ObjFault,
    pub index: u32,
}
