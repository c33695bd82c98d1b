//! Laws of the definitions, each a function that does nothing.

ghost use Rattle.std.specs.Prelude.{◌≡◌, ◌<◌, ℕ, true, List, length};
ghost use Rattle.coff_aux.specs.Parents.{comes_back, AreParents, ComesTwice};

/// A chain of parents that has not ended after as many steps as there are numbers comes to a section twice, and one that
/// comes to a section twice has not ended then.
#[tactic(auto, using(crate::proofs::ParentLemmas::comes_twice_from_back, crate::proofs::ParentLemmas::comes_back_from_twice))]
pub fn circles_come_twice()
    ensures twice { (parents : List ℕ) (section : ℕ) → AreParents parents → section < length parents
        → comes_back parents section ≡ true → ComesTwice parents section }
    ensures circle { (parents : List ℕ) (section : ℕ) → AreParents parents → section < length parents
        → ComesTwice parents section → comes_back parents section ≡ true }
{}
