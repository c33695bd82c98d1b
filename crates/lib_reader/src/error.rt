//! Why a library is refused.

use link_base::LibFault;

/// A refusal of a library or of one of its members, with the offset of the header at fault; 0 for the whole
/// file. At one header the order is Header, Size, LongName, Directory.
#[derive(Clone, Copy, Debug, PartialEq, Eq)]
pub struct LibError {
    pub kind: LibFault,
    pub at: u32,
}
