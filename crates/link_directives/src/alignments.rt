//! Alignments that directives ask for commons.

ghost use Rattle.std.specs.Prelude.{◌≡◌, ◌∷◌, [], ℕ, List, max, fold, filter_map, map, if◌then◌else◌, IfOk, OnOk};
ghost use Rattle.directives.specs.Said.{said};
ghost use Rattle.indexmap.specs.IndexMap.{get};
ghost use Rattle.link_base.specs.NameText.{same_name};
ghost use Rattle.module_view.specs.Module.{ModuleView};
ghost use Rattle.link_directives.specs.LinkDirectives.{asked_alignment, asked_by, raised_alignment};
ghost use Rattle.link_directives.specs.Alignments.{raised_by, AreAsked};

use directives::Directive;
use indexmap::IndexMap;
use link_base::{Memory, Name};
use module_view::Module;
use std::alloc::Global;

/// The greatest power of two that a common can be aligned to, by its exponent.
const GREATEST_POWER: u8 = 13;

/// The greatest alignment that directives ask for each name, by its exponent.
#[derive(Drop)]
pub struct CommonAlignments<'a> {
    powers: IndexMap<Name<'a>, u8>,
}

impl<'a> CommonAlignments<'a> {
    /// What the directives of these modules ask.
    pub fn of(alloc: Global, modules: &[Module<'a>]) -> Result<CommonAlignments<'a>, Memory>
        ensures { IfOk result (AreAsked modules.now) }
    {
        let mut powers = IndexMap::new(alloc);
        for module in modules {
            note_powers(&mut powers, module.directives())?;
        }
        Ok(CommonAlignments { powers })
    }

    /// The greatest of an alignment and those that are asked for a name.
    pub fn raised(&self, name: &Name<'a>, alignment: u32) -> u32
        ensures { (modules : List ModuleView) → AreAsked modules self.now → result ≡ raised_alignment modules name.now alignment }
    {
        match self.powers.get(name) {
            Some(power) => alignment.max(1 << (*power).min(GREATEST_POWER)),
            None => alignment,
        }
    }
}

/// Notes the alignments among directives.
fn note_powers<'a>(
    powers: &mut IndexMap<Name<'a>, u8>,
    directives: &[Directive<'a>],
) -> Result<(), Memory>
    ensures { OnOk result ((name : List ℕ) (alignment : ℕ) → raised_by (get same_name powers.new name) alignment
        ≡ fold max (raised_by (get same_name powers.old name) alignment) (filter_map (asked_by name) (map said directives.now))) }
{
    for directive in directives {
        note_directive(powers, directive)?;
    }
    Ok(())
}

/// Notes the alignment that a directive asks for a name, where it does.
fn note_directive<'a>(
    powers: &mut IndexMap<Name<'a>, u8>,
    directive: &Directive<'a>,
) -> Result<(), Memory>
    ensures { OnOk result ((name : List ℕ) (alignment : ℕ) → raised_by (get same_name powers.new name) alignment
        ≡ fold max (raised_by (get same_name powers.old name) alignment) (filter_map (asked_by name) (said directive.now ∷ []))) }
{
    match directive {
        Directive::AlignComm { name, log } => note_power(powers, name, *log),
        Directive::AlternateName { .. }
        | Directive::DefaultLib(_)
        | Directive::Export(_)
        | Directive::FailIfMismatch { .. }
        | Directive::Include(_)
        | Directive::Merge { .. } => Ok(()),
    }
}

/// Notes an alignment of a name, unless a greater one is noted. The name is hashed once, or twice for a lower one.
fn note_power<'a>(
    powers: &mut IndexMap<Name<'a>, u8>,
    name: &Name<'a>,
    log: u8,
) -> Result<(), Memory>
    ensures { OnOk result ((other : List ℕ) (alignment : ℕ) → raised_by (get same_name powers.new other) alignment
        ≡ (if same_name name.now other then max (raised_by (get same_name powers.old other) alignment) (asked_alignment log)
        else raised_by (get same_name powers.old other) alignment)) }
{
    let Some(before) = powers.insert(name.again(), log)? else {
        return Ok(());
    };
    if before <= log {
        return Ok(());
    }
    powers.insert(name.again(), before)?;
    Ok(())
}
