//! The walk along the members at the start of a library: its directories, its long names and the members for other
//! machines. It ends at the first member that is none of these, which is judged too, or at the end of the file.

ghost use Rattle.std.specs.Prelude.{◌≡◌, ◌<◌, ◌≤◌, ◌+◌, ◌^◌, ◌-◌, ◌&&◌, ◌==◌, length, true, false, is_some, is_none, None, Some, IfSome, IfOk, IfErr, OnOk, if◌then◌else◌, unwrap_or, []};
ghost use Rattle.std.specs.Option.{option_copied};
ghost use Rattle.lib_reader.specs.ArchiveMember.{size_is_bad};
ghost use Rattle.lib_reader.specs.MemberFault.{member_fault};
ghost use Rattle.lib_reader.specs.Listing.{directory_is_bad, listings_in};
ghost use Rattle.lib_reader.specs.LibraryWalk.{has_magic, header_at, first_listed, second_listed, has_directory_fault, long_names_data, long_names_among, position_fault, library_fault, listing_of, long_names_of};

use crate::constants::ARCHIVE_START;
use crate::error::LibError;
use crate::header::{data_in, name_text, next_header};
use crate::listings::Listings;
use crate::member_fault::read_header;
use crate::member_name::{names_directory, names_long_names, names_special};
use link_base::LibFault;

/// What the first and the second directory that the walk came to list.
#[derive(Drop)]
struct Directories<'a> {
    first: Option<Listings<'a>>,
    second: Option<Listings<'a>>,
}

/// What a well formed library says at its start: its listings, and its long names.
#[derive(Drop)]
pub(crate) struct Start<'a> {
    pub(crate) listings: Listings<'a>,
    pub(crate) long_names: &'a [u8],
}

/// The directories with one more, by its data; none where it is malformed. One behind the second is not read.
fn with_directory<'a>(found: Directories<'a>, content: &'a [u8]) -> Option<Directories<'a>>
    ensures fails { is_none result ≡ (if is_none found.entry.first then directory_is_bad false content.now else is_none found.entry.second && directory_is_bad true content.now) }
    ensures first { IfSome result (λ all. all.first ≡ (if is_none found.entry.first then Some (listings_in false content.now) else found.entry.first)) }
    ensures second { IfSome result (λ all. all.second ≡ (if is_some found.entry.first && is_none found.entry.second then Some (listings_in true content.now) else found.entry.second)) }
{
    let Directories { first, second } = found;
    let Some(first) = first else {
        let first = Listings::open(false, content)?;
        return Some(Directories {
            first: Some(first),
            second,
        });
    };
    if second.is_some() {
        return Some(Directories {
            first: Some(first),
            second,
        });
    }
    let second = Listings::open(true, content)?;
    Some(Directories {
        first: Some(first),
        second: Some(second),
    })
}

/// The directories with the member at a place, where it is one; none where it is malformed, or where the first
/// member is no directory.
fn directories_behind<'a>(
    found: Directories<'a>,
    bytes: &'a [u8],
    at: usize,
    position: usize,
) -> Option<Directories<'a>>
    requires place { at ≡ header_at bytes.now position }
    requires header { at + 60 ≤ length bytes.now }
    requires size { size_is_bad bytes.now at ≡ false }
    requires first { found.first ≡ first_listed bytes.now position }
    requires second { found.second ≡ second_listed bytes.now position }
    ensures fails { is_none result ≡ has_directory_fault bytes.now position }
    ensures first { IfSome result (λ all. all.first ≡ first_listed bytes.now (position + 1)) }
    ensures second { IfSome result (λ all. all.second ≡ second_listed bytes.now (position + 1)) }
{
    if names_directory(name_text(bytes, at)) {
        return with_directory(found, data_in(bytes, at));
    }
    if position == 0 {
        return None;
    }
    Some(found)
}

/// The long names with the member at a place, where it has them and none before it does.
fn long_names_behind<'a>(
    found: Option<&'a [u8]>,
    bytes: &'a [u8],
    at: usize,
    position: usize,
) -> Option<&'a [u8]>
    requires place { at ≡ header_at bytes.now position }
    requires header { at + 60 ≤ length bytes.now }
    requires size { size_is_bad bytes.now at ≡ false }
    requires found { option_copied found ≡ long_names_data bytes.now position }
    ensures { option_copied result ≡ long_names_data bytes.now (position + 1) }
{
    if found.is_some() || !names_long_names(name_text(bytes, at)) {
        return found;
    }
    Some(data_in(bytes, at))
}

/// The directories with the member at a place, or what is wrong there.
#[tactic(auto, unfolding(crate::specs::LibraryWalk::position_fault))]
fn judged<'a>(
    found: Directories<'a>,
    long_names: &[u8],
    bytes: &'a [u8],
    at: usize,
    position: usize,
) -> Result<Directories<'a>, LibError>
    requires small { at < 2 ^ 32 }
    requires place { at ≡ header_at bytes.now position }
    requires first { found.first ≡ first_listed bytes.now position }
    requires second { found.second ≡ second_listed bytes.now position }
    requires names { long_names.now ≡ long_names_among bytes.now position }
    ensures refused { IfErr result (λ error. position_fault bytes.now position ≡ Some error) }
    ensures passes { OnOk result (position_fault bytes.now position ≡ None) }
    ensures header { OnOk result (at + 60 ≤ length bytes.now) }
    ensures size { OnOk result (size_is_bad bytes.now at ≡ false) }
    ensures first { IfOk result (λ all. all.first ≡ first_listed bytes.now (position + 1)) }
    ensures second { IfOk result (λ all. all.second ≡ second_listed bytes.now (position + 1)) }
{
    if let Err(error) = read_header(long_names, bytes, at) {
        return Err(error);
    }
    match directories_behind(found, bytes, at, position) {
        Some(all) => Ok(all),
        None => Err(LibError {
            kind: LibFault::Directory,
            at: at as u32,
        }),
    }
}

/// The long names, where a member has them.
fn or_empty<'a>(text: Option<&'a [u8]>) -> &'a [u8]
    ensures { result.now ≡ unwrap_or (option_copied text.entry) [] }
{
    match text {
        Some(text) => text,
        None => &[],
    }
}

/// What a library says at its start: the listings of its second directory where there is one, else of its first.
fn start_of<'a>(found: Directories<'a>, long_names: Option<&'a [u8]>) -> Start<'a>
    ensures listings { result.listings ≡ unwrap_or found.entry.second (unwrap_or found.entry.first []) }
    ensures long_names { result.long_names.now ≡ unwrap_or (option_copied long_names.entry) [] }
{
    let Directories { first, second } = found;
    let listings = match (first, second) {
        (_, Some(second)) => second,
        (Some(first), None) => first,
        (None, None) => Listings::empty(),
    };
    Start {
        listings,
        long_names: or_empty(long_names),
    }
}

/// What a library says at its start, or the first fault in the order of the walk.
pub(crate) fn walk(bytes: &[u8]) -> Result<Start<'_>, LibError>
    requires small { length bytes.now < 2 ^ 32 - 1 }
    requires start { 8 ≤ length bytes.now }
    requires magic { has_magic bytes.now ≡ true }
    ensures refused { IfErr result (λ error. library_fault bytes.now ≡ Some error) }
    ensures passes { OnOk result (library_fault bytes.now ≡ None) }
    ensures listings { IfOk result (λ start. start.listings ≡ listing_of bytes.now) }
    ensures long_names { IfOk result (λ start. start.long_names.now ≡ long_names_of bytes.now) }
{
    let mut at = ARCHIVE_START.len();
    let mut position = 0;
    let mut directories = Directories {
        first: None,
        second: None,
    };
    let mut long_names = None;
    while at < bytes.len() {
        directories = judged(directories, or_empty(long_names), bytes, at, position)?;
        if !names_special(name_text(bytes, at)) {
            return Ok(start_of(directories, long_names));
        }
        long_names = long_names_behind(long_names, bytes, at, position);
        at = next_header(bytes, at);
        position += 1;
    }
    Ok(start_of(directories, long_names))
}
