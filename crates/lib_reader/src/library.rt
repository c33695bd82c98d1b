//! A library, as a view of its bytes.

ghost use Rattle.std.specs.Prelude.{◌≡◌, ◌<◌, ◌-◌, ◌^◌, length, drop, IfOk, OnOk, IfErr, is_ok, is_none, true, false, None, Some};
ghost use Rattle.std.specs.List.{slice_get};
ghost use Rattle.lib_reader.specs.ArchiveMember.{name_text, data_of};
ghost use Rattle.lib_reader.specs.MemberName.{member_name};
ghost use Rattle.lib_reader.specs.MemberFault.{member_fault};
ghost use Rattle.lib_reader.specs.Listing.{first_of_name};
ghost use Rattle.lib_reader.specs.LibraryWalk.{has_magic, library_fault, listing_of, long_names_of};

use crate::constants::{ARCHIVE_START, SIZEOF_ARCHIVE_MEMBER_HDR};
use crate::error::LibError;
use crate::listings::Listings;
use crate::member_fault::read_header;
use crate::walk::walk;
use link_base::{LibFault, Name, slice_in};
use std::marker::Model;

/// A library that was opened. What it gives out is borrowed from the file's bytes.
#[derive(Drop)]
pub struct Library<'a> {
    bytes: &'a [u8],
    listings: Listings<'a>,
    long_names: &'a [u8],
}

impl<'a> Model for Library<'a> {
    ghost use Rattle.std.specs.Prelude.{List, ℕ};
    ghost use Rattle.lib_reader.specs.OpenLibrary.{IsOpen};

    ghost Value = { List ℕ };

    ghost view = { λ library. library.bytes.now };

    ghost invariant = { λ library. IsOpen library.bytes.now library.listings library.long_names.now };
}

/// A member of a library: its name, and its data without the byte that may pad them.
#[derive(Drop)]
pub struct Member<'a> {
    pub name: Name<'a>,
    pub bytes: &'a [u8],
}

/// Whether bytes begin as a library does.
pub fn begins_library(bytes: &[u8]) -> bool
    ensures { result ≡ has_magic bytes.now }
{
    if begins_otherwise(bytes) {
        return false;
    }
    bytes.starts_with(ARCHIVE_START)
}

/// Whether the first byte is that of no library, as in each object.
#[tactic(auto, using(crate::proofs::StartLemmas::no_library))]
fn begins_otherwise(bytes: &[u8]) -> bool
    ensures { result ≡ true → has_magic bytes.now ≡ false }
{
    !bytes.is_empty() && bytes[0] != b'!'
}

impl<'a> Library<'a> {
    /// The library with these bytes. A malformed one is refused for the first fault of a walk along the members at
    /// its start, as `LibFault` and `LibError` say: the directories, the long names and the members for other
    /// machines, and the first member behind them.
    pub fn open(bytes: &'a [u8]) -> Result<Library<'a>, LibError>
        requires { length bytes.now < 2 ^ 32 - 1 }
        ensures same_bytes { IfOk result (λ library. library ≡ bytes.now) }
        ensures well_formed { OnOk result (library_fault bytes.now ≡ None) }
        ensures refused { IfErr result (λ error. library_fault bytes.now ≡ Some error) }
        ensures opens { is_ok result ≡ is_none (library_fault bytes.now) }
    {
        if !begins_library(bytes) {
            return Err(LibError {
                kind: LibFault::Magic,
                at: 0,
            });
        }
        let start = walk(bytes)?;
        Ok(Library {
            bytes,
            listings: start.listings,
            long_names: start.long_names,
        })
    }

    /// How many listings the directory has.
    pub fn listing_count(&self) -> u32
        ensures { result ≡ length (listing_of self.now) }
    {
        self.listings.left()
    }

    /// All listings, in the directory's order: each a name, and the offset of the header of the member that defines
    /// it. They are read one behind the other, in one pass.
    pub fn listings(&self) -> Listings<'a>
        ensures { result ≡ listing_of self.now }
    {
        self.listings.again()
    }

    /// A listing, by its index. It is looked for from the first on: for all of them take `listings`.
    pub fn listing(&self, i: u32) -> (Name<'a>, u32)
        requires { i < length (listing_of self.now) }
        ensures { slice_get (listing_of self.now) i ≡ Some result }
    {
        let mut listings = self.listings();
        for _ in 0..i {
            let _ = listings.next();
        }
        match listings.next() {
            Some(listing) => listing,
            None => (Name::of(&[]), 0),
        }
    }

    /// The offset of the header of the member that defines a name: that of its first listing, where it has one. It
    /// is looked for from the first listing on.
    pub fn find(&self, name: Name<'_>) -> Option<u32>
        ensures { result ≡ first_of_name name.entry (listing_of self.now) }
    {
        let mut listings = self.listings();
        while let Some((listed, at)) = listings.next() {
            if listed == name {
                return Some(at);
            }
        }
        None
    }

    /// The member whose header stands at an offset, which need not be one of the listings'. It is refused where the
    /// header is bad, the size is, or the long name is missing. A long name costs a search for its end.
    pub fn member(&self, at: u32) -> Result<Member<'a>, LibError>
        ensures name { IfOk result (λ member. member.name ≡ member_name (long_names_of self.now) (name_text self.now at)) }
        ensures content { IfOk result (λ member. member.bytes.now ≡ data_of self.now at) }
        ensures refused { IfErr result (λ error. member_fault (long_names_of self.now) self.now at ≡ Some error) }
        ensures found { is_ok result ≡ is_none (member_fault (long_names_of self.now) self.now at) }
    {
        let place = at as usize;
        let header = match read_header(self.long_names, self.bytes, place) {
            Ok(header) => header,
            Err(error) => return Err(error),
        };
        Ok(Member {
            name: header.name,
            bytes: slice_in(self.bytes, place + SIZEOF_ARCHIVE_MEMBER_HDR, header.size),
        })
    }
}
