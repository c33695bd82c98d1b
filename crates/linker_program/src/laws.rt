//! Laws of the definitions, each the contract of a function that does nothing.

ghost use Rattle.std.specs.Prelude.{◌≡◌, ℕ, List};
ghost use Rattle.link_files.specs.Store.{Store};
ghost use Rattle.linker_program.specs.Ending.{Outcome};
ghost use Rattle.linker_program.specs.Outcome.{HasOutcome};

/// Words and files have one outcome.
pub fn one_outcome()
    ensures { (words : List (List ℕ)) (store : Store) (first second : Outcome)
        → HasOutcome words store first → HasOutcome words store second → first ≡ second }
{}
