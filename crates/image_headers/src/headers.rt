//! The headers of an image, by the options.

ghost use Rattle.std.specs.Prelude.{◌≡◌};
ghost use Rattle.link_words.specs.Outcome.{options_said};
ghost use Rattle.image_headers.specs.ImageHeaders.{headers_of, dll_characteristics};

use image_writer::Headers;
use link_base::pe_format::{
    DIRECTORY_ENTRY_BASERELOC, DIRECTORY_ENTRY_DEBUG, DIRECTORY_ENTRY_EXCEPTION,
    DIRECTORY_ENTRY_EXPORT, DIRECTORY_ENTRY_IAT, DIRECTORY_ENTRY_IMPORT,
    DIRECTORY_ENTRY_LOAD_CONFIG, DIRECTORY_ENTRY_RESOURCE, DIRECTORY_ENTRY_TLS,
    DLLCHARACTERISTICS_DYNAMIC_BASE, DLLCHARACTERISTICS_HIGH_ENTROPY_VA,
    DLLCHARACTERISTICS_NX_COMPAT,
};
use link_words::Options;

/// The directories of an image: the RVA and the size of each, or zeros where there is none. `exceptions` is that of the
/// exception table, `slots` that of the slots of imports, and `tls` that of thread-local storage.
#[derive(Clone, Copy)]
pub struct Directories {
    pub exports: (u32, u32),
    pub resources: (u32, u32),
    pub exceptions: (u32, u32),
    pub imports: (u32, u32),
    pub slots: (u32, u32),
    pub relocations: (u32, u32),
    pub tls: (u32, u32),
    pub load_config: (u32, u32),
    pub debug: (u32, u32),
}

/// The headers of an image that begins at an RVA, with its directories (PE Format, "Optional Header (Image Only)").
pub fn headers_of(options: &Options<'_>, entry: u32, tables: Directories) -> Headers
    ensures { result ≡ headers_of (options_said options.now) entry tables }
{
    let mut directories = [(0, 0); 16];
    directories[DIRECTORY_ENTRY_EXPORT] = tables.exports;
    directories[DIRECTORY_ENTRY_IMPORT] = tables.imports;
    directories[DIRECTORY_ENTRY_RESOURCE] = tables.resources;
    directories[DIRECTORY_ENTRY_EXCEPTION] = tables.exceptions;
    directories[DIRECTORY_ENTRY_BASERELOC] = tables.relocations;
    directories[DIRECTORY_ENTRY_DEBUG] = tables.debug;
    directories[DIRECTORY_ENTRY_TLS] = tables.tls;
    directories[DIRECTORY_ENTRY_LOAD_CONFIG] = tables.load_config;
    directories[DIRECTORY_ENTRY_IAT] = tables.slots;
    Headers {
        base: options.base,
        entry,
        dll: options.dll,
        fixed: options.fixed,
        large: options.large,
        flags: dll_characteristics(options),
        subsystem: options.subsystem,
        version: options.version,
        time: options.time,
        stack: options.stack,
        heap: options.heap,
        directories,
    }
}

/// How the image may be loaded.
fn dll_characteristics(options: &Options<'_>) -> u16
    ensures { result ≡ dll_characteristics (options_said options.now) }
{
    let moves = options.dynamic && !options.fixed;
    let high = if moves && options.entropy && options.large {
        DLLCHARACTERISTICS_HIGH_ENTROPY_VA
    } else {
        0
    };
    let dynamic = if moves {
        DLLCHARACTERISTICS_DYNAMIC_BASE
    } else {
        0
    };
    let nx = if options.nx {
        DLLCHARACTERISTICS_NX_COMPAT
    } else {
        0
    };
    high + dynamic + nx
}
