mod contributions;
mod maps;
mod modules;
mod publics;
mod resources;
mod streams;
