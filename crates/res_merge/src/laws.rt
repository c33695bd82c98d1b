//! Laws of the definitions, each the contract of a function that does nothing.

ghost use Rattle.std.specs.Prelude.{◌≡◌, ℕ, ◌<◌, ◌+◌, ◌^◌, List, length};
ghost use Rattle.link_base.specs.Bytes.{bytes_at};
ghost use Rattle.res_merge.specs.Entries.{Key, Entry};
ghost use Rattle.res_merge.specs.Order.{in_order, AreMergeable};
ghost use Rattle.res_merge.specs.Tree.{tree_of, tree_size};
ghost use Rattle.res_merge.specs.Lookup.{resource_data};
ghost use Rattle.res_merge.specs.Found.{IsSmallKey, AreNumbered, data_of};

/// In a memory that holds the tree of some resources at the RVA that it was made for, what is found for a type, a name and
/// a language is the data of the resource that has them, and nothing where none has.
pub fn resources_are_found_in_their_tree()
    ensures { (memory : List ℕ) (time rva size : ℕ) (list : List Entry) → AreMergeable list → AreNumbered list → rva + tree_size (in_order list) < 2 ^ 32 → bytes_at memory rva size ≡ tree_of time rva (in_order list) → (kind name : Key) (language : ℕ) → IsSmallKey kind → IsSmallKey name → resource_data memory rva size kind name language ≡ data_of kind name language list }
{}

/// A tree is as long as `tree_length` says.
pub fn a_tree_has_its_length()
    ensures { (time rva : ℕ) (list : List Entry) → length (tree_of time rva list) ≡ tree_size list }
{}
