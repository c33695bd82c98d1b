//! The default libraries that are searched.

ghost use Rattle.std.specs.Prelude.{◌≡◌, ◌<◌, ◌∷◌, ◌++◌, [], List, ℕ, length, map, filter_map, option_map, IfOk, OnOk};
ghost use Rattle.directives.specs.Said.{said};
ghost use Rattle.link_words.specs.Outcome.{LinkOptions, options_said};
ghost use Rattle.link_words.specs.SettingsView.{text_of, texts_of};
ghost use Rattle.module_view.specs.Module.{ModuleView};
ghost use Rattle.file_search.specs.FileNames.{completed};
ghost use Rattle.file_search.specs.InputFiles.{text_at};
ghost use Rattle.file_search.specs.DefaultLibraries.{default_said, default_names, ruled_out};
ghost use Rattle.file_search.specs.DefaultSteps.{NotesOnly, NotesMore, KeepsDefaults, wanted_by};

use crate::library_name::{complete_key, complete_name};
use directives::Directive;
use input_arena::Inputs;
use link_base::Memory;
use link_words::Options;
use module_view::Module;
use std::alloc::Global;
use std::collections::HashSet;

/// The default libraries that are searched, in the order in which they were named. Names in lower case tell which are
/// passed over: those that are ruled out, and those that were named before.
#[derive(Drop)]
pub struct DefaultLibraries<'a> {
    all_ruled_out: bool,
    seen: HashSet<String>,
    wanted: Vec<&'a str>,
}

impl<'a> DefaultLibraries<'a> {
    /// Those that the command line names.
    pub fn new(
        alloc: Global,
        inputs: &mut Inputs<'a>,
        options: &Options<'a>,
    ) -> Result<DefaultLibraries<'a>, Memory>
        ensures named { IfOk result (λ libraries. KeepsDefaults (options_said options.now)
            (default_names (options_said options.now) []) libraries) }
        ensures total_kept { inputs.new ≡ inputs.old }
    {
        let mut libraries = DefaultLibraries::none_yet(alloc, options)?;
        for name in &options.default_libs {
            libraries.add(alloc, inputs, name)?;
        }
        Ok(libraries)
    }

    /// None yet. Where all are ruled out, no name is noted.
    fn none_yet(alloc: Global, options: &Options<'a>) -> Result<DefaultLibraries<'a>, Memory>
        ensures { IfOk result (λ libraries. KeepsDefaults (options_said options.now) [] libraries) }
    {
        let seen = if options.no_default_all {
            HashSet::new(alloc)
        } else {
            ruled_out(alloc, options)?
        };
        Ok(DefaultLibraries {
            all_ruled_out: options.no_default_all,
            seen,
            wanted: Vec::new(alloc),
        })
    }

    /// Adds those that a module names.
    pub fn add_module(
        &mut self,
        alloc: Global,
        inputs: &mut Inputs<'a>,
        module: &Module<'a>,
    ) -> Result<(), Memory>
        ensures named { OnOk result ((options : LinkOptions) (modules : List ModuleView) →
            KeepsDefaults options (default_names options modules) self.old
            → KeepsDefaults options (default_names options (modules ++ «module».now ∷ [])) self.new) }
        ensures total_kept { inputs.new ≡ inputs.old }
    {
        for directive in module.directives() {
            self.add_directive(alloc, inputs, directive)?;
        }
        Ok(())
    }

    /// Adds the one that a directive names, where it names one.
    fn add_directive(
        &mut self,
        alloc: Global,
        inputs: &mut Inputs<'a>,
        directive: &Directive<'a>,
    ) -> Result<(), Memory>
        ensures named { OnOk result ((options : LinkOptions) (names : List (List ℕ)) →
            KeepsDefaults options names self.old
            → KeepsDefaults options (names ++ map completed (filter_map default_said (said directive.now ∷ []))) self.new) }
        ensures total_kept { inputs.new ≡ inputs.old }
    {
        match library_named(directive) {
            Some(name) => self.add(alloc, inputs, name),
            None => Ok(()),
        }
    }

    /// Adds one, unless it is passed over.
    fn add(&mut self, alloc: Global, inputs: &mut Inputs<'a>, name: &'a str) -> Result<(), Memory>
        ensures named { OnOk result ((options : LinkOptions) (names : List (List ℕ)) →
            KeepsDefaults options names self.old
            → KeepsDefaults options (names ++ completed name.now ∷ []) self.new) }
        ensures total_kept { inputs.new ≡ inputs.old }
    {
        if self.all_ruled_out {
            return Ok(());
        }
        if self.seen.insert(complete_key(alloc, name)?)? {
            self.wanted.push(complete_name(alloc, inputs, name)?)?;
        }
        Ok(())
    }

    /// How many are searched.
    pub fn count(&self) -> usize
        ensures { result ≡ length (wanted_by self.now) }
    {
        self.wanted.len()
    }

    /// The name of one of them, in their order.
    pub fn name_at(&self, k: usize) -> &'a str
        requires { k < length (wanted_by self.now) }
        ensures { result.now ≡ text_at (wanted_by self.now) k }
    {
        self.wanted[k]
    }
}

/// The library that a directive names, where it names one.
fn library_named<'a>(directive: &Directive<'a>) -> Option<&'a str>
    ensures { option_map text_of result ≡ default_said (said directive.now) }
{
    match directive {
        Directive::DefaultLib(name) => Some(name),
        Directive::AlignComm { .. }
        | Directive::AlternateName { .. }
        | Directive::Export(_)
        | Directive::FailIfMismatch { .. }
        | Directive::Include(_)
        | Directive::Merge { .. } => None,
    }
}

/// The names that are ruled out: those of the inputs, and those that the command line gives.
fn ruled_out(alloc: Global, options: &Options<'_>) -> Result<HashSet<String>, Memory>
    ensures { IfOk result (λ seen. NotesOnly seen (ruled_out (options_said options.now))) }
{
    let mut seen = HashSet::new(alloc);
    note_inputs(alloc, &mut seen, &options.inputs)?;
    note_completed(alloc, &mut seen, &options.no_default)?;
    Ok(seen)
}

/// Notes the names of inputs, as they are given.
fn note_inputs(alloc: Global, seen: &mut HashSet<String>, inputs: &[&str]) -> Result<(), Memory>
    ensures { OnOk result (NotesMore seen.old seen.new (texts_of inputs.now)) }
{
    for input in inputs {
        seen.insert(input.to_ascii_lowercase(alloc)?)?;
    }
    Ok(())
}

/// Notes names of default libraries.
fn note_completed(alloc: Global, seen: &mut HashSet<String>, names: &[&str]) -> Result<(), Memory>
    ensures { OnOk result (NotesMore seen.old seen.new (map completed (texts_of names.now))) }
{
    for name in names {
        seen.insert(complete_key(alloc, name)?)?;
    }
    Ok(())
}
