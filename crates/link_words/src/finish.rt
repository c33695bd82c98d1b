//! The options of a link, once all of its words are read.

ghost use Rattle.std.specs.Prelude.{◌≡◌, IfOk, Some, None, if◌then◌else◌, option_map, unwrap_or};
ghost use Rattle.std.specs.Option.{option_copied};
ghost use Rattle.std.specs.String.{string_bytes};
ghost use Rattle.link_words.specs.Extension.{with_extension};
ghost use Rattle.link_words.specs.Outcome.{options_said};
ghost use Rattle.link_words.specs.SettingsView.{texts_of};
ghost use Rattle.link_words.specs.Options.{default_base, default_subsystem, default_entry, image_extension, first_text, map_name, is_named, are_one, outputs_clash, lacks_image_name, ends_in_slash};
ghost use Rattle.link_words.specs.Answers.{Answers};
ghost use Rattle.link_words.specs.Steps.{so_far, final_options, finished};

use crate::errors::{UsageKind, WordsError, usage};
use crate::extension::with_extension;
use crate::given::Given;
use crate::options::Options;
use link_base::Name;
use link_base::pe_format::{SUBSYSTEM_WINDOWS_CUI, SUBSYSTEM_WINDOWS_GUI};
use std::alloc::{AllocError, Global};

/// The options that the words give. A link has an input, a link without an entry is a DLL, the files that it writes have
/// names of their own, and an image with an import library has a name.
#[tactic(auto, unfolding(crate::specs::Steps::finished, crate::specs::LinkWords::line_refusal))]
pub(crate) fn finish<'w>(alloc: Global, given: Given<'w>) -> Result<Options<'w>, WordsError>
    ensures { Answers options_said (finished (so_far given.entry)) result }
{
    let options = final_options(alloc, given)?;
    if options.inputs.is_empty() {
        return Err(usage(0, UsageKind::NoInput));
    }
    if (options.noentry && !options.dll)
        || (outputs_clash(&options) || lacks_image_name(&options))
    {
        return Err(usage(0, UsageKind::Conflict));
    }
    Ok(options)
}

/// The options, with the defaults that depend on other words.
#[tactic(auto, unfolding(crate::specs::Steps::final_options))]
fn final_options<'w>(alloc: Global, given: Given<'w>) -> Result<Options<'w>, AllocError>
    ensures { IfOk result (λ options. options_said options ≡ final_options (so_far given.entry)) }
{
    let mut options = given.options;
    let first = first_text(&options.inputs);
    options.out = named_or(alloc, given.out, first, image_extension(options.dll))?;
    options.pdb = named_or(alloc, given.pdb, options.out.as_str(), ".pdb")?;
    options.map = map_file(alloc, given.map, options.out.as_str())?;
    options.subsystem = given.subsystem.unwrap_or(default_subsystem(options.dll));
    options.base = given
        .base
        .unwrap_or(default_base(options.large, options.dll));
    options.entry = entry_name(
        options.noentry,
        given.entry,
        default_entry(options.dll, options.subsystem),
    );
    Ok(options)
}

fn first_text<'w>(texts: &[&'w str]) -> &'w str
    ensures { result.now ≡ first_text (texts_of texts.now) }
{
    match texts {
        [] => "",
        [first, ..] => first,
    }
}

/// The name that the image begins at: none, or the one that a word gives, or else the default.
fn entry_name<'w>(noentry: bool, named: Option<Name<'w>>, default: Name<'w>) -> Option<Name<'w>>
    ensures { result ≡ (if noentry then None else Some (unwrap_or named.entry default.entry)) }
{
    if noentry {
        None
    } else {
        named.or(Some(default))
    }
}

/// The file that a word names, or else another one with this extension.
fn named_or(
    alloc: Global,
    named: Option<&str>,
    other: &str,
    extension: &str,
) -> Result<String, AllocError>
    ensures { IfOk result (λ text. string_bytes text ≡ unwrap_or (option_copied named.entry) (with_extension other.now extension.now)) }
{
    match named {
        Some(name) => String::from_str(alloc, name),
        None => with_extension(alloc, other, extension),
    }
}

/// The file of the map, where one is asked for.
fn map_file(
    alloc: Global,
    asked: Option<Option<&str>>,
    out: &str,
) -> Result<Option<String>, AllocError>
    ensures { IfOk result (λ text. option_map string_bytes text ≡ option_map (map_name out.now) (option_map option_copied asked.entry)) }
{
    match asked {
        Some(named) => {
            let name = named_or(alloc, named, out, ".map")?;
            Ok(Some(name))
        }
        None => Ok(None),
    }
}

fn image_extension(dll: bool) -> &'static str
    ensures { result.now ≡ image_extension dll }
{
    if dll { ".dll" } else { ".exe" }
}

/// Whether two of the files that are written have one name.
#[tactic(auto, unfolding(crate::specs::Options::outputs_clash))]
fn outputs_clash(options: &Options<'_>) -> bool
    ensures { result ≡ outputs_clash (options_said options.now) }
{
    (options.debug && options.pdb == options.out)
        || ((is_named(options.out.as_str(), &options.map)
            || (options.debug && is_named(options.pdb.as_str(), &options.map)))
            || (is_library(options.out.as_str(), options.implib)
                || ((options.debug && is_library(options.pdb.as_str(), options.implib))
                    || are_one(&options.map, options.implib))))
}

/// Whether the import library has this name.
fn is_library(name: &str, library: Option<&str>) -> bool
    ensures { result ≡ is_named name.now (option_copied library.entry) }
{
    match library {
        Some(library) => library == name,
        None => false,
    }
}

/// Whether the map and the import library have one name.
fn are_one(map: &Option<String>, library: Option<&str>) -> bool
    ensures { result ≡ are_one (option_map string_bytes map.now) (option_copied library.entry) }
{
    match map {
        Some(map) => is_library(map.as_str(), library),
        None => false,
    }
}

/// Whether an import library is asked for, but the image has no name after its last slash.
#[tactic(auto, unfolding(crate::specs::Options::lacks_image_name))]
fn lacks_image_name(options: &Options<'_>) -> bool
    ensures { result ≡ lacks_image_name (options_said options.now) }
{
    options.implib.is_some() && ends_in_slash(options.out.as_bytes())
}

/// Whether the last byte of a text is a slash.
fn ends_in_slash(text: &[u8]) -> bool
    ensures { result ≡ ends_in_slash text.now }
{
    if text.is_empty() {
        return false;
    }
    let last = text[text.len() - 1];
    last == b'/' || last == b'\\'
}

fn is_named(name: &str, file: &Option<String>) -> bool
    ensures { result ≡ is_named name.now (option_map string_bytes file.now) }
{
    match file {
        Some(file) => file.as_str() == name,
        None => false,
    }
}

/// Where an image is linked to.
fn default_base(large: bool, dll: bool) -> u64
    ensures { result ≡ default_base large dll }
{
    match (large, dll) {
        (true, true) => 0x1_8000_0000,
        (true, false) => 0x1_4000_0000,
        (false, true) => 0x1000_0000,
        (false, false) => 0x40_0000,
    }
}

/// The number of a DLL's or a program's subsystem.
fn default_subsystem(dll: bool) -> u16
    ensures { result ≡ default_subsystem dll }
{
    if dll {
        SUBSYSTEM_WINDOWS_GUI
    } else {
        SUBSYSTEM_WINDOWS_CUI
    }
}

/// Where a program or a DLL begins.
#[tactic(auto, unfolding(crate::specs::Options::default_entry))]
fn default_entry<'w>(dll: bool, subsystem: u16) -> Name<'w>
    ensures { result ≡ default_entry dll subsystem }
{
    if dll {
        return Name::of(b"_DllMainCRTStartup");
    }
    if subsystem == SUBSYSTEM_WINDOWS_GUI {
        return Name::of(b"WinMainCRTStartup");
    }
    Name::of(b"mainCRTStartup")
}
