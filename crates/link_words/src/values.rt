//! The forms of the options' values.

ghost use Rattle.std.specs.Prelude.{◌≡◌};
ghost use Rattle.directives.specs.FormView.{two_lists};
ghost use Rattle.link_words.specs.Values.{number_64, number_32, decimal_16, negated, sizes, version, subsystem, opt_item, opts};

use directives::{decimal_up_to, is_word, lookup, number_up_to, split_at_byte};
use link_base::pe_format::{
    PAGE_SIZE, SUBSYSTEM_NATIVE, SUBSYSTEM_WINDOWS_CUI, SUBSYSTEM_WINDOWS_GUI,
};

const SUBSYSTEMS: [(&[u8], u16); 3] = [
    (b"NATIVE", SUBSYSTEM_NATIVE),
    (b"WINDOWS", SUBSYSTEM_WINDOWS_GUI),
    (b"CONSOLE", SUBSYSTEM_WINDOWS_CUI),
];

const OPTS: [(&[u8], (Option<bool>, Option<bool>)); 4] = [
    (b"REF", (Some(true), None)),
    (b"NOREF", (Some(false), None)),
    (b"ICF", (None, Some(true))),
    (b"NOICF", (None, Some(false))),
];

/// A number below 2^64.
pub(crate) fn number_64(text: &[u8]) -> Option<u64>
    ensures { result ≡ number_64 text.now }
{
    number_up_to(text, u64::MAX)
}

/// A number below 2^32.
pub(crate) fn number_32(text: &[u8]) -> Option<u32>
    ensures { result ≡ number_32 text.now }
{
    let number = number_up_to(text, 0xffff_ffff)?;
    Some(number as u32)
}

/// `NO`.
#[tactic(auto, unfolding(crate::specs::Values::negated))]
pub(crate) fn negated(text: &[u8]) -> Option<bool>
    ensures { result ≡ negated text.now }
{
    is_word(text, b"NO").then_some(false)
}

/// How many bytes are reserved, and after a comma how many are committed at first.
#[tactic(auto, unfolding(crate::specs::Values::sizes))]
pub(crate) fn sizes(text: &[u8]) -> Option<(u64, u64)>
    ensures { result ≡ sizes text.now }
{
    match split_at_byte(text, b',') {
        None => Some((number_64(text)?, PAGE_SIZE as u64)),
        Some((reserved, committed)) => Some((number_64(reserved)?, number_64(committed)?)),
    }
}

/// A major version, and after a dot a minor one.
#[tactic(auto, unfolding(crate::specs::Values::version))]
pub(crate) fn version(text: &[u8]) -> Option<(u16, u16)>
    ensures { result ≡ version text.now }
{
    match split_at_byte(text, b'.') {
        None => Some((decimal_16(text)?, 0)),
        Some((major, minor)) => Some((decimal_16(major)?, decimal_16(minor)?)),
    }
}

fn decimal_16(text: &[u8]) -> Option<u16>
    ensures { result ≡ decimal_16 text.now }
{
    let number = decimal_up_to(text, 0xffff)?;
    Some(number as u16)
}

/// The subsystem's number.
#[tactic(auto, unfolding(crate::specs::Values::subsystem))]
pub(crate) fn subsystem(text: &[u8]) -> Option<u16>
    ensures { result ≡ subsystem text.now }
{
    lookup(&SUBSYSTEMS, text)
}

/// Whether unreferenced sections are dropped, and whether equal functions fold, each as the last of the parts between commas
/// says that says so.
pub(crate) fn opts(text: &[u8]) -> Option<(Option<bool>, Option<bool>)>
    ensures { result ≡ opts text.now }
{
    let mut refs = None;
    let mut icf = None;
    for part in text.split(|b| *b == b',') {
        let (part_refs, part_icf) = opt_item(part)?;
        refs = part_refs.or(refs);
        icf = part_icf.or(icf);
    }
    Some((refs, icf))
}

#[tactic(auto, unfolding(crate::specs::Values::opt_item))]
fn opt_item(text: &[u8]) -> Option<(Option<bool>, Option<bool>)>
    ensures { result ≡ opt_item text.now }
{
    lookup(&OPTS, text)
}
