//! A row of an exception table, read and written as bytes.

ghost use Rattle.std.specs.Prelude.{◌≡◌, ◌≤◌, ◌+◌, ◌*◌, length};
ghost use Rattle.pdata_table.specs.Rows.{row_at, row_bytes};

use byteorder::{ByteOrder, LittleEndian};
use link_base::u32_in;

/// The bytes of a row.
pub(crate) const ROW_LEN: usize = 12;

/// A row: the RVA of a function's first byte, that of the byte behind its last, and that of its unwind information. The
/// order of rows is that of these numbers, each deciding only where those before it are equal.
#[derive(Clone, Copy, PartialEq, Eq, PartialOrd, Ord)]
pub(crate) struct Row {
    pub begin: u32,
    pub end: u32,
    pub unwind: u32,
}

/// The row of an index.
pub(crate) fn row_in(table: &[u8], index: usize) -> Row
    requires { ROW_LEN * index + ROW_LEN ≤ length table.now }
    ensures { result ≡ row_at table.now index }
{
    let at = ROW_LEN * index;
    Row {
        begin: u32_in(table, at),
        end: u32_in(table, at + 4),
        unwind: u32_in(table, at + 8),
    }
}

/// Writes a row over bytes of its length.
#[tactic(auto, unfolding(link_base::specs::Bytes::number_bytes, crate::specs::Rows::row_bytes))]
pub(crate) fn put_row(bytes: &mut [u8], row: Row)
    requires { length bytes.old ≡ ROW_LEN }
    ensures { bytes.new ≡ row_bytes row }
{
    LittleEndian::write_u32_into(&[row.begin, row.end, row.unwind], bytes);
}
