//! What the files for debuggers list of an image: of a PDB the names of its modules, what each piece gives to a section, and
//! the public symbols; of a map the modules, the sections, the pieces and the public symbols, and the map itself. It takes the
//! modules of a link, what their names mean, its pieces and their places, and gives the rows that `pdb_dbi`, `pdb_publics`
//! and `map_file` write. Its contracts promise that these are the rows of the definitions, each once and in their order.
//! Which pieces are kept is left to others.
#![tactic(auto)]

mod contribution_rows;
mod kept_places;
mod link_publics;
mod map_of_image;
mod map_rows;
mod module_rows;
mod piece_rows;
mod placed_publics;
mod rvas;
mod slot_publics;

pub use contribution_rows::contributions;
pub use kept_places::kept_publics;
pub use link_publics::{PublicPlace, public_places};
pub use map_of_image::{MappedImage, image_map};
pub use map_rows::{map_modules, map_sections};
pub use module_rows::module_names;
pub use piece_rows::map_pieces;
pub use placed_publics::{map_publics, public_rows};
