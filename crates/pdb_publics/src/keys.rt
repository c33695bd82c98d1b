//! The keys of the orders of the streams, for rows whose records stand one behind the other.

ghost use Rattle.std.specs.Prelude.{◌≡◌, ◌≤◌, ◌^◌, IfOk};
ghost use Rattle.std.specs.List.{flat_map};
ghost use Rattle.pdb_publics.specs.PublicOrder.{hash_keys, place_keys, extent, lowered};

use crate::hashing::bucket;
use crate::pushing::push_name;
use crate::record::record_size;
use crate::rows::PublicRow;
use link_base::{Memory, Name};
use std::alloc::Global;

/// The keys of the order of a hash part, each deciding only where those before it are equal: the bucket of a name, its
/// length, the name with small letters for capitals, and the offset of the record.
#[derive(PartialEq, Eq, PartialOrd, Ord, Drop)]
pub(crate) struct HashKey<'a> {
    pub bucket: u32,
    pub len: usize,
    pub lowered: Name<'a>,
    pub record_offset: u32,
}

impl<'a> HashKey<'a> {
    /// An equal key.
    pub(crate) fn again(&self) -> HashKey<'a>
        ensures { result ≡ self.now }
    {
        HashKey {
            bucket: self.bucket,
            len: self.len,
            lowered: self.lowered.again(),
            record_offset: self.record_offset,
        }
    }
}

/// The keys of the order of an address map: the section, the offset in it, and the offset of the record.
#[derive(Clone, Copy, PartialEq, Eq, PartialOrd, Ord)]
pub(crate) struct PlaceKey {
    pub section: u16,
    pub offset: u32,
    pub record_offset: u32,
}

/// The names of the rows with small letters for capitals, one behind the other.
#[tactic(auto, using(crate::proofs::PartLemmas::lowered_joined))]
pub(crate) fn lowered_names(alloc: Global, rows: &[PublicRow<'_>]) -> Result<Vec<u8>, Memory>
    ensures { IfOk result (λ names. names.items ≡ flat_map (λ row. lowered row.name) rows.now) }
{
    let mut names = joined_names(alloc, rows)?;
    names.as_mut_slice().make_ascii_lowercase();
    Ok(names)
}

fn joined_names(alloc: Global, rows: &[PublicRow<'_>]) -> Result<Vec<u8>, Memory>
    ensures { IfOk result (λ names. names.items ≡ flat_map (λ row. row.name) rows.now) }
{
    let mut names = Vec::new(alloc);
    for row in rows {
        push_name(&mut names, &row.name)?;
    }
    Ok(names)
}

/// The keys of rows whose records stand one behind the other.
pub(crate) fn hash_keys<'t>(
    alloc: Global,
    rows: &[PublicRow<'_>],
    names: &'t [u8],
) -> Result<Vec<HashKey<'t>>, Memory>
    requires small { extent rows.now ≤ 2 ^ 30 }
    requires lowered { names.now ≡ flat_map (λ row. lowered row.name) rows.now }
    ensures { IfOk result (λ keys. keys.items ≡ hash_keys 0 rows.now) }
{
    let mut keys = Vec::with_capacity(alloc, rows.len())?;
    let mut record = 0;
    let mut rest = names;
    for row in rows {
        let len = row.name.len();
        let (text, others) = rest.split_at(len);
        keys.push(HashKey {
            bucket: bucket(row.name.again()),
            len,
            lowered: Name::of(text),
            record_offset: record,
        })?;
        record += record_size(len) as u32;
        rest = others;
    }
    Ok(keys)
}

/// The keys of rows whose records stand one behind the other.
pub(crate) fn place_keys(alloc: Global, rows: &[PublicRow<'_>]) -> Result<Vec<PlaceKey>, Memory>
    requires { extent rows.now ≤ 2 ^ 30 }
    ensures { IfOk result (λ keys. keys.items ≡ place_keys 0 rows.now) }
{
    let mut keys = Vec::with_capacity(alloc, rows.len())?;
    let mut record = 0;
    for row in rows {
        keys.push(PlaceKey {
            section: row.section,
            offset: row.offset,
            record_offset: record,
        })?;
        record += record_size(row.name.len()) as u32;
    }
    Ok(keys)
}
