//! Laws of the definitions, each the contract of a function that does nothing.

ghost use Rattle.std.specs.Prelude.{◌≡◌, ◌<◌, ◌≤◌, ℕ, List, Some, None};
ghost use Rattle.link_files.specs.Store.{file_of};
ghost use Rattle.generated_world.specs.GeneratedObject.{object_name, generated_object};
ghost use Rattle.generated_world.specs.GeneratedWorld.{generated_files};

/// Each object of a program is there under its name, and no other file is.
pub fn world_holds_its_objects()
    ensures objects { (count i : ℕ) → count ≤ 2000 → i < count → file_of (generated_files count) (object_name i) ≡ Some (generated_object count i) }
    ensures alone { (count : ℕ) (name : List ℕ) → ((i : ℕ) → i < count → name ≡ object_name i → ⊥) → file_of (generated_files count) name ≡ None }
{}
