mod export_lookup;
mod host_files;
mod import_walk;
