//! What each option does to the settings.

ghost use Rattle.std.specs.Prelude.{◌≡◌, option_map, option_and_then};
ghost use Rattle.std.specs.Option.{ok_or};
ghost use Rattle.directives.specs.Said.{said};
ghost use Rattle.link_words.specs.Setting.{bare_says, value_says, shared, Optimize};
ghost use Rattle.link_words.specs.Steps.{so_far, with_said, Gives};

use crate::errors::{Refusal, UsageKind};
use crate::field::{push, push_text, set, taken};
use crate::given::Given;
use crate::known::Known;
use crate::values::{negated, number_32, number_64, opts, sizes, subsystem, version};
use directives::{Directive, is_word, value_of};
use link_base::Name;

/// The option without a value.
pub(crate) fn bare(given: &mut Given<'_>, option: Known) -> Result<(), Refusal>
    ensures { Gives result (with_said (so_far given.old) (ok_or (bare_says option) UsageKind.MissingValue)) (so_far given.new) }
{
    match option {
        Known::Debug => given.options.debug = true,
        Known::Dll => given.options.dll = true,
        Known::NoEntry => given.options.noentry = true,
        Known::DynamicBase => given.options.dynamic = true,
        Known::HighEntropyVa => given.options.entropy = true,
        Known::NxCompat => given.options.nx = true,
        Known::LargeAddressAware => given.options.large = true,
        Known::Fixed => given.options.fixed = true,
        Known::Map => given.map = Some(None),
        Known::NoDefaultLib => given.options.no_default_all = true,
        Known::NoLogo => {}
        _ => return Err(Refusal::Usage(UsageKind::MissingValue)),
    }
    Ok(())
}

/// The option of this name with a value.
pub(crate) fn with_value<'w>(
    given: &mut Given<'w>,
    name: &[u8],
    value: &'w str,
    option: Known,
) -> Result<(), Refusal>
    ensures { Gives result (with_said (so_far given.old) (ok_or (value_says option name.now value.now) UsageKind.BadValue)) (so_far given.new) }
{
    let text = value.as_bytes();
    match option {
        Known::Shared => gather(given, value_of(name, text)),
        Known::LibPath => push_text(&mut given.options.lib_paths, value),
        Known::NoDefaultLib => push_text(&mut given.options.no_default, value),
        Known::DynamicBase => set(&mut given.options.dynamic, negated(text)),
        Known::HighEntropyVa => set(&mut given.options.entropy, negated(text)),
        Known::NxCompat => set(&mut given.options.nx, negated(text)),
        Known::LargeAddressAware => set(&mut given.options.large, negated(text)),
        Known::Fixed => set(&mut given.options.fixed, negated(text)),
        Known::Base => set(&mut given.base, number_64(text).map(Some)),
        Known::Entry => set(&mut given.entry, Some(Some(Name::of(text)))),
        Known::Heap => set(&mut given.options.heap, sizes(text)),
        Known::Stack => set(&mut given.options.stack, sizes(text)),
        Known::Map => set(&mut given.map, Some(Some(Some(value)))),
        Known::ImpLib => set(&mut given.options.implib, Some(Some(value))),
        Known::Opt => set_opts(given, opts(text)),
        Known::Out => set(&mut given.out, Some(Some(value))),
        Known::Pdb => set(&mut given.pdb, Some(Some(value))),
        Known::Subsystem => set(&mut given.subsystem, subsystem(text).map(Some)),
        Known::TimeStamp => set(&mut given.options.time, number_32(text)),
        Known::Version => set(&mut given.options.version, version(text)),
        Known::Machine => taken(is_word(text, b"X64")),
        Known::Ignored => taken(is_word(text, b"NO")),
        Known::Debug | Known::Dll | Known::NoEntry | Known::NoLogo => {
            Err(Refusal::Usage(UsageKind::BadValue))
        }
    }
}

/// Whether unreferenced sections are dropped, and whether equal functions fold, where a list says so or says not.
fn set_opts(
    given: &mut Given<'_>,
    read: Option<(Option<bool>, Option<bool>)>,
) -> Result<(), Refusal>
    ensures { Gives result (with_said (so_far given.old) (ok_or (option_map Optimize read) UsageKind.BadValue)) (so_far given.new) }
{
    match read {
        Some((refs, icf)) => {
            given.options.refs = refs.or(given.options.refs);
            given.options.icf = icf.unwrap_or(given.options.icf);
            Ok(())
        }
        None => Err(Refusal::Usage(UsageKind::BadValue)),
    }
}

/// A value of the kind that directives have too, where it has its form.
fn gather<'w>(given: &mut Given<'w>, read: Option<Directive<'w>>) -> Result<(), Refusal>
    ensures { Gives result (with_said (so_far given.old) (ok_or (option_and_then shared (option_map said read.entry)) UsageKind.BadValue)) (so_far given.new) }
{
    match read {
        Some(Directive::AlternateName { left, right }) => push(
            &mut given.options.alternates,
            (left, right),
        ),
        Some(Directive::DefaultLib(text)) => push_text(&mut given.options.default_libs, text),
        Some(Directive::Export(export)) => push(&mut given.options.exports, export),
        Some(Directive::Include(name)) => push(&mut given.options.includes, name),
        Some(Directive::Merge { left, right }) => push(&mut given.options.merges, (left, right)),
        _ => Err(Refusal::Usage(UsageKind::BadValue)),
    }
}
