//! Laws of the definitions, each the contract of a function that does nothing.

ghost use Rattle.std.specs.Prelude.{◌≡◌, ◌<◌, ℕ, List, Some};
ghost use Rattle.std.specs.List.{All};
ghost use Rattle.pe_loader.specs.LoadedImage.{image_base, loaded, HasZeroSlack};

use crate::loaded::Loaded;
use link_base::is_shared;

/// Two files that load the same memory, each at its own base, and have no byte besides, are one.
pub fn one_file_loads_a_memory()
    ensures { (first second memory : List ℕ) → All (λ byte. byte < 256) first → All (λ byte. byte < 256) second
        → loaded first (image_base first) ≡ Some memory → loaded second (image_base second) ≡ Some memory
        → HasZeroSlack first → HasZeroSlack second → first ≡ second }
{}

/// Loaded images may be shared by threads and handed from one to another.
pub fn loaded_images_are_shared() {
    is_shared::<Loaded>()
}
