//! A law of the definitions, the contract of a function that does nothing.

ghost use Rattle.std.specs.Prelude.{◌≡◌, List, IsPermutation, IsSorted};
ghost use Rattle.std.specs.Cmp.{IsTotalOrder};
ghost use Rattle.std.specs.declared.cmp.Ordering.{Ordering};
ghost use Rattle.std.specs.declared.cmp.Ordering.TheVariants.{Equal};
ghost use Rattle.sorted_lists.specs.Order.{in_order};

/// A list in order has the items of the list, each as often. By a total order it ascends; and where items that tie are one,
/// each list that has these items and ascends is it, so that two such lists are the same.
pub fn one_sorted_list<T>()
    ensures items { (cmp : T → T → Ordering) (list : List T) → IsPermutation list (in_order cmp list) }
    ensures ascends { (cmp : T → T → Ordering) → IsTotalOrder cmp → (list : List T) → IsSorted cmp (in_order cmp list) }
    ensures one { (cmp : T → T → Ordering) → IsTotalOrder cmp → ((left right : T) → cmp left right ≡ Equal → left ≡ right)
        → (list sorted : List T) → IsPermutation list sorted → IsSorted cmp sorted → sorted ≡ in_order cmp list }
{}
