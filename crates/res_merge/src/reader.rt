//! The resources of a file, one after another.

ghost use Rattle.std.specs.Prelude.{◌≡◌, ◌==◌, ◌<◌, ◌^◌, ◌&&◌, nat_lt, length, if◌then◌else◌};

use crate::entry::entry_read;
use crate::resource::{ResError, Resource};
use link_base::ResFault;

/// The size of the entry that says that a file is a resource file, which is passed over.
const FIRST_ENTRY_SIZE: usize = 32;

/// The resources of a file, in its order. What is wrong with an entry is the last item: `Name` where its type or its
/// name has more than 32,000 units, `Header` where a field leaves the file, or the size of the header is no multiple of
/// four, too small for its fields, or leaves the file, and `Data` where the data leave the file. A text is read before the
/// fields behind it, so `Name` comes first. A file of fewer than 32 bytes is `Header` at 0. The zeros behind the last data
/// may be missing (Windows, "Resource File Formats").
#[derive(Drop)]
pub struct Resources<'a> {
    bytes: &'a [u8],
    /// Where the next entry begins, or 0 at the start.
    at: usize,
    ghost small: { length bytes.now < 2 ^ 32 },
}

impl<'a> Resources<'a> {
    ghost use Rattle.res_merge.specs.ResourceFile.{resources_of};
    ghost use Rattle.res_merge.specs.Left.{items_left};

    /// The resources of a file, by its bytes.
    pub fn new(bytes: &'a [u8]) -> Resources<'a>
        requires { length bytes.now < 2 ^ 32 }
        ensures { items_left result ≡ resources_of bytes.now }
    {
        Resources { bytes, at: 0 }
    }
}

/// Whether a file whose first entry is not passed over yet is too short for it.
fn is_cut(bytes: &[u8], at: usize) -> bool
    ensures { result ≡ (at == 0 && nat_lt (length bytes.now) 32) }
{
    at == 0 && bytes.len() < FIRST_ENTRY_SIZE
}

/// Where the next entry begins, also at the start.
fn entry_place(at: usize) -> usize
    ensures { result ≡ (if at == 0 then 32 else at) }
{
    if at == 0 { FIRST_ENTRY_SIZE } else { at }
}

impl<'a> Iterator for Resources<'a> {
    type Item = Result<Resource<'a>, ResError>;

    ghost use Rattle.std.specs.Iterator.{YieldsFirstBy, item_count};
    ghost use Rattle.res_merge.specs.Entries.{item_said};
    ghost use Rattle.res_merge.specs.Left.{items_left};

    ghost next_gives = { YieldsFirstBy item_said items_left };

    ghost remaining = { item_count items_left };

    fn next(&mut self) -> Option<Result<Resource<'a>, ResError>> {
        let bytes = self.bytes;
        if is_cut(bytes, self.at) {
            self.at = FIRST_ENTRY_SIZE;
            return Some(Err(ResError {
                kind: ResFault::Header,
                at: 0,
            }));
        }
        let at = entry_place(self.at);
        if at >= bytes.len() {
            return None;
        }
        let read = match entry_read(bytes, at) {
            Ok(read) => read,
            Err(kind) => {
                self.at = bytes.len();
                return Some(Err(ResError {
                    kind,
                    at: at as u32,
                }));
            }
        };
        self.at = read.next;
        Some(Ok(read.resource))
    }
}
