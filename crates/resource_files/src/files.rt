//! The resource files of a link, opened one after another.

ghost use Rattle.std.specs.Prelude.{◌≡◌, ◌≤◌, ◌<◌, ◌+◌, ◌++◌, ◌∷◌, [], None, Some, true, false, length, map, filter_map, option_map, if◌then◌else◌, IfOk, OnOk, IfErr};
ghost use Rattle.link_base.specs.Limits.{FILE_LIMIT as most_bytes};
ghost use Rattle.link_base.specs.NameText.{begins};
ghost use Rattle.link_base.specs.Refusals.{first_standing};
ghost use Rattle.coff_object.specs.Forms.{resource_start};
ghost use Rattle.res_merge.specs.Entries.{entry_of};
ghost use Rattle.res_merge.specs.Order.{RESOURCE_LIMIT as most_resources};
ghost use Rattle.res_merge.specs.ResourceFile.{resources_of};
ghost use Rattle.file_search.specs.Reading.{file_found};
ghost use Rattle.resource_files.specs.Held.{item_entry, item_error, entries_in, error_in, bad_entry, duplicate, is_again, first_again, entries_fault};
ghost use Rattle.resource_files.specs.Parts.{KeepsResources};
ghost use Rattle.resource_files.specs.SaidFaults.{RefusesSaid};

use crate::key::ResourceKey;
use file_search::FoundFile;
use indexmap::IndexSet;
use link_base::{Fault, Name, Refusal};
use res_merge::{ResError, Resource, Resources};
use std::alloc::Global;

/// A link takes no more resources.
const RESOURCE_LIMIT: usize = 65_535;

/// The resources of the files that were opened, by the order of the files, and in each file in its order.
#[derive(Drop)]
pub struct ResourceFiles<'a> {
    /// At most 65,535, of which no two have one type, name and language.
    pub resources: Vec<Resource<'a>>,
    keys: IndexSet<ResourceKey<'a>>,
    /// A file was opened, be it one that holds nothing.
    pub opened: bool,
}

impl<'a> ResourceFiles<'a> {
    /// No file was opened.
    pub fn new(alloc: Global) -> ResourceFiles<'a>
        ensures kept { KeepsResources result }
        ensures none { map entry_of result.resources.items ≡ [] }
        ensures unopened { result.opened ≡ false }
    {
        ResourceFiles {
            resources: Vec::new(alloc),
            keys: IndexSet::new(alloc),
            opened: false,
        }
    }

    /// Opens a file after those before it: its resources come behind theirs. The first malformed entry is refused
    /// (`BadResource`, with the offset at which it begins), then more than 65,535 entries of this file and those before it
    /// (`TooManyResources`, with how many they are), then the first entry whose type, name and language an entry before it has,
    /// in this file or in an earlier one (`DuplicateResource`).
    ///
    /// That the file begins as a resource file is left to the caller: its first 32 bytes are passed over. Behind a refusal
    /// nothing is said of what is kept.
    pub fn open(&mut self, file: &FoundFile<'a>) -> Result<(), Refusal<'a>>
        requires short { length file.now.bytes.now ≤ most_bytes }
        requires kept { KeepsResources self.old }
        ensures kept { OnOk result (KeepsResources self.new) }
        ensures entries { OnOk result (map entry_of self.new.resources.items ≡ map entry_of self.old.resources.items ++ entries_in (file_found file.now)) }
        ensures opened { OnOk result (self.new.opened ≡ true) }
        ensures accepted { OnOk result (entries_fault (file_found file.now) (map entry_of self.old.resources.items) ≡ None) }
        ensures refused { IfErr result (RefusesSaid (entries_fault (file_found file.now) (map entry_of self.old.resources.items))) }
    {
        let added = match entry_count(file.bytes) {
            Ok(added) => added,
            Err(error) => return Err(Refusal::Fault(bad_entry(&file.file, error))),
        };
        let count = self.resources.len() + added;
        if count > RESOURCE_LIMIT {
            return Err(Refusal::Fault(Fault::TooManyResources {
                count: count as u32,
            }));
        }
        self.opened = true;
        self.add_all(file)
    }

    /// Adds the entries of a file, none of which is malformed. The first whose type, name and language one before it has is
    /// refused.
    fn add_all(&mut self, file: &FoundFile<'a>) -> Result<(), Refusal<'a>>
        requires short { length file.now.bytes.now ≤ most_bytes }
        requires kept { KeepsResources self.old }
        requires well { error_in (file_found file.now) ≡ None }
        requires few { length self.old.resources.items + length (entries_in (file_found file.now)) ≤ most_resources }
        ensures kept { OnOk result (KeepsResources self.new) }
        ensures entries { OnOk result (map entry_of self.new.resources.items ≡ map entry_of self.old.resources.items ++ entries_in (file_found file.now)) }
        ensures opened { OnOk result (self.new.opened ≡ self.old.opened) }
        ensures accepted { OnOk result (first_again (map entry_of self.old.resources.items) (entries_in (file_found file.now)) ≡ None) }
        ensures refused { IfErr result (RefusesSaid (option_map (duplicate file.now.file) (first_again (map entry_of self.old.resources.items) (entries_in (file_found file.now))))) }
    {
        for item in Resources::new(file.bytes) {
            match item {
                Ok(resource) => self.add(&file.file, resource)?,
                Err(error) => return Err(Refusal::Fault(bad_entry(&file.file, error))),
            }
        }
        Ok(())
    }

    /// Adds a resource of a file, where none has its type, name and language.
    fn add(&mut self, file: &Name<'a>, resource: Resource<'a>) -> Result<(), Refusal<'a>>
        requires kept { KeepsResources self.old }
        requires few { length self.old.resources.items < most_resources }
        ensures kept { OnOk result (KeepsResources self.new) }
        ensures added { OnOk result (map entry_of self.new.resources.items ≡ map entry_of self.old.resources.items ++ entry_of resource.entry ∷ []) }
        ensures opened { OnOk result (self.new.opened ≡ self.old.opened) }
        ensures accepted { OnOk result (is_again (map entry_of self.old.resources.items) (entry_of resource.entry) ≡ false) }
        ensures refused { IfErr result (RefusesSaid (if is_again (map entry_of self.old.resources.items) (entry_of resource.entry) then Some (duplicate file.now (entry_of resource.entry)) else None)) }
    {
        let Ok(is_new) = self.keys.insert(ResourceKey::of(resource)) else {
            return Err(Refusal::Memory);
        };
        if !is_new {
            return Err(Refusal::Fault(Fault::DuplicateResource {
                file: file.again(),
                member: None,
                kind: resource.kind,
                name: resource.name,
                language: resource.language,
            }));
        }
        match self.resources.push(resource) {
            Ok(()) => Ok(()),
            Err(_) => Err(Refusal::Memory),
        }
    }
}

/// How many entries a resource file has, or the first error of one.
fn entry_count(bytes: &[u8]) -> Result<usize, ResError>
    requires { length bytes.now ≤ most_bytes }
    ensures counted { IfOk result (λ count. count ≡ length (filter_map item_entry (resources_of bytes.now))) }
    ensures few { IfOk result (λ count. count ≤ most_bytes) }
    ensures accepted { OnOk result (first_standing (map item_error (resources_of bytes.now)) ≡ None) }
    ensures refused { IfErr result (λ error. first_standing (map item_error (resources_of bytes.now)) ≡ Some error) }
{
    let mut count = 0usize;
    for item in Resources::new(bytes) {
        match item {
            Ok(_) => count += 1,
            Err(error) => return Err(error),
        }
    }
    Ok(count)
}

/// The fault of a malformed entry of a file.
fn bad_entry<'a>(file: &Name<'a>, error: ResError) -> Fault<'a>
    ensures { result ≡ bad_entry file.now error }
{
    Fault::BadResource {
        file: file.again(),
        member: None,
        kind: error.kind,
        at: error.at,
    }
}

/// Whether a file begins with the empty entry of a resource file: with 16 bytes that say that it has no data and a header of 32
/// bytes, and that its type and its name are the number 0.
#[tactic(auto, unfolding(coff_object::specs::Forms::resource_start))]
pub fn begins_resources(bytes: &[u8]) -> bool
    ensures { result ≡ begins bytes.now resource_start }
{
    bytes.starts_with(b"\x00\x00\x00\x00\x20\x00\x00\x00\xff\xff\x00\x00\xff\xff\x00\x00")
}
