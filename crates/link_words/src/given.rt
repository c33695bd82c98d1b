//! What the words of a link give so far.

ghost use Rattle.std.specs.Prelude.{◌≡◌};
ghost use Rattle.link_words.specs.Steps.{so_far, nothing_said};
ghost use Rattle.link_words.specs.Outcome.{options_said};

use crate::options::Options;
use link_base::Name;
use link_base::pe_format::PAGE_SIZE;
use std::alloc::Global;

/// The options so far. Those whose defaults depend on other words stand beside them as long as words are read,
/// and `finish` puts them in.
#[derive(Drop)]
pub(crate) struct Given<'w> {
    pub(crate) options: Options<'w>,
    pub(crate) base: Option<u64>,
    pub(crate) entry: Option<Name<'w>>,
    /// The map, where one is asked for, and its file, where one is named.
    pub(crate) map: Option<Option<&'w str>>,
    pub(crate) out: Option<&'w str>,
    pub(crate) pdb: Option<&'w str>,
    pub(crate) subsystem: Option<u16>,
}

/// What is given before the first word.
pub(crate) fn none_given<'w>(alloc: Global) -> Given<'w>
    ensures { so_far result ≡ nothing_said }
{
    Given {
        options: default_options(alloc),
        base: None,
        entry: None,
        map: None,
        out: None,
        pdb: None,
        subsystem: None,
    }
}

fn default_options<'w>(alloc: Global) -> Options<'w>
    ensures { options_said result ≡ nothing_said.options }
{
    Options {
        inputs: Vec::new(alloc),
        alternates: Vec::new(alloc),
        merges: Vec::new(alloc),
        default_libs: Vec::new(alloc),
        exports: Vec::new(alloc),
        includes: Vec::new(alloc),
        base: 0,
        debug: false,
        dll: false,
        noentry: false,
        dynamic: true,
        entropy: true,
        nx: true,
        large: true,
        entry: None,
        fixed: false,
        heap: (0x10_0000, PAGE_SIZE as u64),
        stack: (0x10_0000, PAGE_SIZE as u64),
        lib_paths: Vec::new(alloc),
        map: None,
        implib: None,
        no_default: Vec::new(alloc),
        no_default_all: false,
        refs: None,
        icf: false,
        out: String::new(alloc),
        pdb: String::new(alloc),
        subsystem: 0,
        time: 0,
        version: (0, 0),
    }
}
