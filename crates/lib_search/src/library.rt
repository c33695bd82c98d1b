//! The libraries that are searched.

ghost use Rattle.std.specs.Prelude.{◌≡◌, ◌≤◌, ◌<◌, ◌+◌, ◌++◌, ◌∷◌, [], ℕ, List, length, slice_index_or, None, Some, if◌then◌else◌, IfOk, OnOk, IfErr};
ghost use Rattle.std.specs.Option.{option_or};
ghost use Rattle.indexmap.specs.IndexMap.{get};
ghost use Rattle.link_base.specs.Limits.{FILE_LIMIT as most_bytes, MODULE_LIMIT as most_modules};
ghost use Rattle.link_base.specs.NameText.{same_name};
ghost use Rattle.link_base.specs.Refusals.{RefusesFor};
ghost use Rattle.file_search.specs.FoundFiles.{FoundFile, no_file};
ghost use Rattle.lib_search.specs.LibraryFaults.{bad_library, no_library};
ghost use Rattle.lib_search.specs.OpenLibraries.{ListsBelow};
ghost use Rattle.lib_search.specs.SearchSteps.{library_at, first_listing, member_view, member_fault_in};

use indexmap::IndexMap;
use lib_reader::{LibError, Library};
use link_base::{Fault, Memory, Name, Refusal};
use module_view::{Module, Origin};
use par_read::{Job, join_opened, open_job};
use std::alloc::Global;
use std::marker::Model;

/// A library that is searched, and its file.
#[derive(Drop)]
pub(crate) struct OpenLibrary<'a> {
    file: Name<'a>,
    library: Library<'a>,
}

impl<'a> Model for OpenLibrary<'a> {
    ghost use Rattle.std.specs.Prelude.{◌≤◌, length};
    ghost use Rattle.link_base.specs.Limits.{FILE_LIMIT as most_bytes};
    ghost use Rattle.file_search.specs.FoundFiles.{FoundFile};

    ghost Value = { FoundFile };

    ghost view = { λ l. record { file = l.file; bytes = l.library } };

    ghost invariant = { λ l. length l.library ≤ most_bytes };
}

impl<'a> OpenLibrary<'a> {
    /// Opens the library in a file. One that is malformed is refused.
    pub(crate) fn open(file: Name<'a>, bytes: &'a [u8]) -> Result<OpenLibrary<'a>, Refusal<'a>>
        requires { length bytes.now ≤ most_bytes }
        ensures opened { IfOk result (λ library. library ≡ record { file = file.entry; bytes = bytes.now }) }
        ensures accepted { OnOk result (no_library (record { file = file.entry; bytes = bytes.now }) ≡ None) }
        ensures refused { IfErr result (RefusesFor (no_library (record { file = file.entry; bytes = bytes.now }))) }
    {
        match Library::open(bytes) {
            Ok(library) => Ok(OpenLibrary { file, library }),
            Err(error) => Err(Refusal::Fault(bad_library(file, error))),
        }
    }

    /// Opens the member whose header stands at an offset as a module after these. One that does not open is refused.
    pub(crate) fn open_member(
        &self,
        alloc: Global,
        at: u32,
        merges: bool,
        modules: &[Module<'a>],
    ) -> Result<Module<'a>, Refusal<'a>>
        ensures opened { IfOk result (λ opened. opened ≡ member_view self.now at) }
        ensures accepted { OnOk result (member_fault_in self.now at merges modules.now ≡ None) }
        ensures few { OnOk result (length modules.now < most_modules) }
        ensures refused { IfErr result (RefusesFor (member_fault_in self.now at merges modules.now)) }
    {
        let member = match self.library.member(at) {
            Ok(member) => member,
            Err(error) => return Err(Refusal::Fault(bad_library(self.file.again(), error))),
        };
        let job = Job {
            origin: Origin {
                file: self.file.again(),
                member: Some(member.name),
            },
            bytes: member.bytes,
        };
        join_opened(open_job(alloc, &job), &job, merges, modules)
    }
}

/// The fault of a malformed library in a file.
pub(crate) fn bad_library<'a>(file: Name<'a>, error: LibError) -> Fault<'a>
    ensures { result ≡ bad_library file.entry error }
{
    Fault::BadLibrary {
        file,
        member: None,
        kind: error.kind,
        at: error.at,
    }
}

/// The libraries that are searched, in their order. A member is known by the place of its library among them and by the offset
/// of its header: for each name that of its first listing is kept.
#[derive(Drop)]
pub(crate) struct Libraries<'a> {
    list: Vec<OpenLibrary<'a>>,
    places: IndexMap<Name<'a>, (usize, u32)>,
}

impl<'a> Model for Libraries<'a> {
    ghost use Rattle.std.specs.Prelude.{List, length};
    ghost use Rattle.indexmap.specs.IndexMap.{get};
    ghost use Rattle.link_base.specs.NameText.{same_name};
    ghost use Rattle.file_search.specs.FoundFiles.{FoundFile};
    ghost use Rattle.lib_search.specs.OpenLibraries.{ListsBelow};

    ghost Value = { List FoundFile };

    ghost view = { λ l. l.list.items };

    ghost invariant = { λ l. ListsBelow (get same_name l.places) (length l.list.items) l.list.items };
}

impl<'a> Libraries<'a> {
    /// These libraries.
    pub(crate) fn of(alloc: Global, list: Vec<OpenLibrary<'a>>) -> Result<Libraries<'a>, Memory>
        ensures { IfOk result (λ libraries. libraries ≡ list.entry.items) }
    {
        let mut places = IndexMap::with_capacity(alloc, listing_total(&list))?;
        for index in 0..list.len() {
            note_listings(&mut places, index, &list[index])?;
        }
        Ok(Libraries { list, places })
    }

    /// A library after those before it.
    pub(crate) fn with(self, library: OpenLibrary<'a>) -> Result<Libraries<'a>, Memory>
        ensures { IfOk result (λ libraries. libraries ≡ self.entry ++ library.entry ∷ []) }
    {
        let Libraries {
            mut list,
            mut places,
        } = self;
        note_listings(&mut places, list.len(), &library)?;
        push_library(&mut list, library)?;
        Ok(Libraries { list, places })
    }

    /// The member that the first library that lists a name lists for it.
    #[tactic(auto, unfolding(crate::specs::SearchSteps::first_listing))]
    pub(crate) fn first_listing(&self, name: &Name<'a>) -> Option<(usize, u32)>
        ensures { result ≡ first_listing self.now name.now }
    {
        match self.places.get(name) {
            Some(place) => Some(*place),
            None => None,
        }
    }

    /// Opens the member at a place as a module after these. One that does not open is refused.
    pub(crate) fn open_member(
        &self,
        alloc: Global,
        place: (usize, u32),
        merges: bool,
        modules: &[Module<'a>],
    ) -> Result<Module<'a>, Refusal<'a>>
        requires { place.0 < length self.now }
        ensures opened { IfOk result (λ opened. opened ≡ member_view (library_at self.now place.0) place.1) }
        ensures accepted { OnOk result (member_fault_in (library_at self.now place.0) place.1 merges modules.now ≡ None) }
        ensures few { OnOk result (length modules.now < most_modules) }
        ensures refused { IfErr result (RefusesFor (member_fault_in (library_at self.now place.0) place.1 merges modules.now)) }
    {
        self.list[place.0].open_member(alloc, place.1, merges, modules)
    }
}

/// How many listings these libraries have together.
fn listing_total(libraries: &[OpenLibrary<'_>]) -> usize {
    let mut total = 0usize;
    for each in libraries {
        total = total.saturating_add(each.library.listing_count() as usize);
    }
    total
}

/// Notes the listings of the library at an index, after those of the libraries before it.
fn note_listings<'a>(
    places: &mut IndexMap<Name<'a>, (usize, u32)>,
    index: usize,
    library: &OpenLibrary<'a>,
) -> Result<(), Memory>
    ensures { OnOk result ((libraries : List FoundFile) → library.now ≡ slice_index_or libraries index no_file
        → ListsBelow (get same_name places.old) index libraries → ListsBelow (get same_name places.new) (index + 1) libraries) }
{
    for (name, at) in library.library.listings() {
        note_listing(places, name, (index, at))?;
    }
    Ok(())
}

/// Notes a listing, where it is the first of its name.
fn note_listing<'a>(
    places: &mut IndexMap<Name<'a>, (usize, u32)>,
    name: Name<'a>,
    place: (usize, u32),
) -> Result<(), Memory>
    ensures { OnOk result ((other : List ℕ) → get same_name places.new other
        ≡ option_or (get same_name places.old other) (if same_name name.entry other then Some place else None)) }
{
    places.entry(name)?.or_insert(place);
    Ok(())
}

/// Appends a library.
pub(crate) fn push_library<'a>(
    libraries: &mut Vec<OpenLibrary<'a>>,
    library: OpenLibrary<'a>,
) -> Result<(), Memory>
    ensures { OnOk result (libraries.new.items ≡ libraries.old.items ++ library.entry ∷ []) }
{
    libraries.push(library)?;
    Ok(())
}
