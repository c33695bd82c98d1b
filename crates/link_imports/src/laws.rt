//! Laws of the definitions, each the contract of a function that does nothing.

ghost use Rattle.std.specs.Prelude.{◌≡◌, ◌<◌, ◌+◌, ℕ, Bool, true, false, List, length, slice_index_or, Some, Contains};
ghost use Rattle.short_import.specs.declared.import.Import.{Import};
ghost use Rattle.module_view.specs.Module.{ModuleView, module_at};
ghost use Rattle.import_tables.specs.ImportDirectory.{import_of};
ghost use Rattle.import_tables.specs.ImportTables.{slots_rva};
ghost use Rattle.import_tables.specs.ReadBack.{found_of};
ghost use Rattle.link_imports.specs.Imports.{import_rows, slot_offset};

/// The slot of an import that is kept, where fields that mean `__imp_` and its name lead, is that which the import directory
/// names with it.
#[tactic(auto, using(crate::proofs::SlotLemmas::import_found))]
pub fn slots_of_imports_are_those_in_the_directory()
    ensures { (modules : List ModuleView) (kept : List Bool) (position : ℕ) (import : Import) (rvas : List ℕ)
        → position < length modules → slice_index_or kept position false ≡ true → (module_at modules position).imported ≡ Some import
        → Contains (found_of (import_rows modules kept) rvas) (import_of import.dll import.by (slots_rva rvas + slot_offset modules kept position)) }
{}
