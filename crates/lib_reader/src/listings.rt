//! The listings of a library: what its directory says of which member defines a name.

ghost use Rattle.std.specs.Prelude.{◌≡◌, ◌<◌, ◌≤◌, ◌+◌, ◌-◌, ◌^◌, List, [], length, drop, false, true, not, is_some, is_none, IfSome, Some};
ghost use Rattle.std.specs.Iterator.{YieldsFirst, item_count};
ghost use Rattle.std.specs.List.{slice_get};
ghost use Rattle.lib_reader.specs.Texts.{texts_end};
ghost use Rattle.lib_reader.specs.Listing.{listed_count, listed_offset, names_place, table_leaves, listed_names, directory_is_bad, listings_in};

use crate::first_directory::{first_count, first_names_place, first_offset, first_table_leaves};
use crate::second_directory::{
    second_count, second_names_place, second_offset, second_table_leaves,
};
use crate::texts::{first_text, texts_end};
use link_base::Name;
use std::marker::Model;

/// The directory of a library without members: a first linker member that counts none.
const EMPTY_DIRECTORY: &[u8] = &[0, 0, 0, 0];

/// The listings of a directory that are still to come, in its order. Each is a name and the offset of the header
/// of the member that defines it. A listing costs one search for the NUL that ends its name.
#[derive(Drop)]
pub struct Listings<'a> {
    directory: &'a [u8],
    is_second: bool,
    index: u32,
    left: u32,
    names: &'a [u8],
}

impl<'a> Model for Listings<'a> {
    ghost use Rattle.std.specs.Prelude.{List};
    ghost use Rattle.lib_reader.specs.Listing.{Entry, listed_offset, listings_from, IsReadable};

    ghost Value = { List Entry };

    ghost view = { λ it. listings_from (listed_offset it.is_second it.directory.now) it.index it.left it.names.now };

    ghost invariant = { λ it. IsReadable it.is_second it.directory.now it.index it.left it.names.now };
}

/// Whether the counts, the offsets or the indices of a directory leave its member.
#[tactic(auto, unfolding(crate::specs::Listing::table_leaves))]
fn table_leaves(is_second: bool, directory: &[u8]) -> bool
    ensures { result ≡ table_leaves is_second directory.now }
{
    if is_second {
        second_table_leaves(directory)
    } else {
        first_table_leaves(directory)
    }
}

/// How many names a directory lists.
#[tactic(auto, using(crate::proofs::TableLemmas::later_form, crate::proofs::TableLemmas::first_form), unfolding(crate::specs::Listing::listed_count))]
fn listed_count(is_second: bool, directory: &[u8]) -> u32
    requires { table_leaves is_second directory.now ≡ false }
    ensures { result ≡ listed_count is_second directory.now }
{
    if is_second {
        second_count(directory)
    } else {
        first_count(directory)
    }
}

/// Where the names of a directory begin.
#[tactic(auto, using(crate::proofs::TableLemmas::later_form, crate::proofs::TableLemmas::first_form), unfolding(crate::specs::Listing::names_place))]
fn names_place(is_second: bool, directory: &[u8]) -> usize
    requires { table_leaves is_second directory.now ≡ false }
    ensures place { result ≡ names_place is_second directory.now }
    ensures inside { result ≤ length directory.now }
{
    if is_second {
        second_names_place(directory)
    } else {
        first_names_place(directory)
    }
}

/// The offset that a directory lists at an index.
#[tactic(auto, using(crate::proofs::TableLemmas::later_form, crate::proofs::TableLemmas::first_form), unfolding(crate::specs::Listing::listed_count, crate::specs::Listing::listed_offset))]
fn listed_offset(is_second: bool, directory: &[u8], index: u32) -> u32
    requires table { table_leaves is_second directory.now ≡ false }
    requires there { index < listed_count is_second directory.now }
    ensures { result ≡ listed_offset is_second directory.now index }
{
    if is_second {
        second_offset(directory, index)
    } else {
        first_offset(directory, index)
    }
}

impl<'a> Listings<'a> {
    /// What a directory lists, by the data of its member, where its counts, indices and names do not leave it.
    #[tactic(auto, unfolding(crate::specs::Listing::directory_is_bad, crate::specs::Listing::listings_in))]
    pub(crate) fn open(is_second: bool, directory: &'a [u8]) -> Option<Listings<'a>>
        ensures opens { is_none result ≡ directory_is_bad is_second directory.now }
        ensures listed { IfSome result (λ listings. listings ≡ listings_in is_second directory.now) }
    {
        if table_leaves(is_second, directory) {
            return None;
        }
        let left = listed_count(is_second, directory);
        let (_, names) = directory.split_at(names_place(is_second, directory));
        if !texts_end(names, left) {
            return None;
        }
        Some(Listings {
            directory,
            is_second,
            index: 0,
            left,
            names,
        })
    }

    /// No listings.
    #[tactic(auto, unfolding(crate::specs::Listing::listings_from))]
    pub(crate) fn empty() -> Listings<'a>
        ensures { result ≡ [] }
    {
        Listings {
            directory: EMPTY_DIRECTORY,
            is_second: false,
            index: 0,
            left: 0,
            names: &[],
        }
    }

    /// How many listings are left.
    #[tactic(auto, using(crate::proofs::ListingLemmas::listings_from_length))]
    pub(crate) fn left(&self) -> u32
        ensures { result ≡ length self.now }
    {
        self.left
    }

    /// The same listings.
    pub(crate) fn again(&self) -> Listings<'a>
        ensures { result ≡ self.now }
    {
        Listings {
            directory: self.directory,
            is_second: self.is_second,
            index: self.index,
            left: self.left,
            names: self.names,
        }
    }
}

impl<'a> Iterator for Listings<'a> {
    type Item = (Name<'a>, u32);

    ghost next_gives = { YieldsFirst (λ listings. listings) };

    ghost remaining = { item_count (λ listings. listings) };

    fn next(&mut self) -> Option<(Name<'a>, u32)> {
        if self.left == 0 {
            return None;
        }
        let at = listed_offset(self.is_second, self.directory, self.index);
        let (name, names) = first_text(self.names);
        self.index += 1;
        self.left -= 1;
        self.names = names;
        Some((name, at))
    }
}
