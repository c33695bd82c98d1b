//! Laws of the definitions, each the contract of a function that does nothing.

ghost use Rattle.std.specs.Prelude.{◌≡◌, ℕ, List};
ghost use Rattle.std.specs.List.{slice_get};
ghost use Rattle.lib_reader.specs.ArchiveMember.{data_of};
ghost use Rattle.lib_reader.specs.MemberFault.{member_fault};
ghost use Rattle.lib_reader.specs.Listing.{first_of_name};
ghost use Rattle.lib_reader.specs.LibraryWalk.{library_fault, listing_of, long_names_of};
ghost use Rattle.implib.specs.declared.row.LibraryRow.{LibraryRow};
ghost use Rattle.implib.specs.ImportLibrary.{header_of, library_of};
ghost use Rattle.implib.specs.ReadBack.{CanBeWritten, ReadsAs, IsPlainName, first_header};

/// An import library opens, and so does the member of each of its rows, where the name of the DLL does not begin with a slash.
/// A search for any name finds the offset of the header of the first row's member that lists it, or none where no row does.
pub fn names_are_found_in_their_library()
    ensures opens { (rows : List LibraryRow) (dll : List ℕ) (time : ℕ) → CanBeWritten rows dll time → IsPlainName dll → library_fault (library_of rows dll time) ≡ None }
    ensures found { (rows : List LibraryRow) (dll : List ℕ) (time : ℕ) → CanBeWritten rows dll time → IsPlainName dll → (name : List ℕ) → first_of_name name (listing_of (library_of rows dll time)) ≡ first_header rows dll name }
    ensures members { (rows : List LibraryRow) (dll : List ℕ) (time : ℕ) → CanBeWritten rows dll time → IsPlainName dll → (index : ℕ) (row : LibraryRow) → slice_get rows index ≡ Some row → member_fault (long_names_of (library_of rows dll time)) (library_of rows dll time) (header_of rows dll index) ≡ None }
{}

/// The data of the member whose header stands where `header_of` says of a row are a short import: what is read of them is the
/// row's symbol, the name of the DLL, the row's kind, and its ordinal or its hint and name.
pub fn members_are_read_back()
    ensures { (rows : List LibraryRow) (dll : List ℕ) (time : ℕ) → CanBeWritten rows dll time → (index : ℕ) (row : LibraryRow) → slice_get rows index ≡ Some row → ReadsAs (data_of (library_of rows dll time) (header_of rows dll index)) row dll }
{}
